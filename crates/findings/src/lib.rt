// The reports of a listing: what is told of each problem about its cells.
#![tactic(auto)]

pub mod fill;
pub mod lent;
mod lines;
pub mod listed;
pub mod room;
pub mod told;
pub mod written;
