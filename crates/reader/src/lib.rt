// Reads the lines of a docstring and keeps, for each asked name, the text that belongs to it.
#![tactic(auto)]

pub mod answer;
pub mod calls;
mod hand_out;
mod limits;
pub mod reader;
pub mod run;
mod state;
mod steps;
mod store;
pub mod targets;
mod terms;
pub mod worked;
