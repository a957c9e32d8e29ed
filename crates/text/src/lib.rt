// Bytes of a docstring: their kinds, and the ways in which every layer above cuts a text.
#![tactic(auto)]

pub mod bytes;
pub mod dedent;
pub mod escape;
pub mod lines;
pub mod runs;
#[cfg(test)]
mod tests;
pub mod trim;
