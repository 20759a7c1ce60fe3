// The trail of a pair in words, with the listing's own statement beside each move. A trail has at most 4,096 words, and its memory for calls
// as many records; one that needs more is refused.
#![tactic(auto)]

mod line;
mod lines;
pub mod pair;
pub mod told;
