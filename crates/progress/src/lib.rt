// A tabulation in portions, told by its tallies.
#![tactic(auto)]

pub mod portion;
pub mod tabulate;
pub mod told;
