// Problems: numbered facts, and which follows from which over an edge.
#![tactic(auto)]

pub mod cells;
pub mod choice;
pub mod edge;
pub mod fault;
mod gathering;
pub mod interface;
pub mod origin;
pub mod raw;
pub mod rule;
pub mod unset;
pub mod worded;
