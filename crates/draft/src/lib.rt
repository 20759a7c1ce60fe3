// A delivered program before it is known to be lawful: what every make asks of it, and the procedures and calls that are found.
#![tactic(auto)]

pub mod callers;
pub mod examine;
pub mod interface;
pub mod procedures;
pub mod question;
pub mod rules;
mod tables;
