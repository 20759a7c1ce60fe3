// A problem whose relation is given as bytes.
#![tactic(auto)]

pub mod given;
pub mod rows;
