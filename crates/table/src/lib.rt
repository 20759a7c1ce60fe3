// The tabulation: a table of found cells, settled in portions.
#![tactic(auto)]

pub mod arrival;
mod seen;
mod sites;
pub mod state;
