// What a line of a docstring is, by four rules behind one interface.
#![tactic(auto)]

mod marks;
pub mod meaning;
pub mod rule;
pub mod rust;
pub mod starlark;
pub mod worked;
