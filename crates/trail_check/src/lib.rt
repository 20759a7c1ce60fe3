// The trail check: whether words are those of a call-matched path.
#![tactic(auto)]

pub mod fault;
mod rules;
pub mod trail;
