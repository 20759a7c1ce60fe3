// A problem whose relation is given as a table of bits.
#![tactic(auto)]

pub mod fault;
pub mod problem;
mod rows;
