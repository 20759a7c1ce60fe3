// What a table keeps of its cells, its tallies, and why it refuses.
#![tactic(auto)]

pub mod fault;
pub mod record;
pub mod tallies;
