// What a contractor sees first: the counts and the procedures of a listing, or why it is refused.
#![tactic(auto)]

pub mod outline;
mod section;
