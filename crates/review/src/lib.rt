// A trail in words, move by move, and whether it is a call-matched path.
#![tactic(auto)]

pub mod told;
pub mod trail;
