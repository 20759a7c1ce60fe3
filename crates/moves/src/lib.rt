// The moves of a path, and a move as a word of 32 bits.
#![tactic(auto)]

pub mod moves;
pub mod words;
