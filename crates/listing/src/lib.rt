// The vocabulary of listings, and the interface by which a program is read.
#![tactic(auto)]

pub mod cells;
pub mod control;
pub mod counts;
pub mod numbers;
pub mod program;
pub mod refused;
pub mod statement;
mod texts;
