// Reports: the pairs of a closed table, line by line on a page that is lent to each call, and the foot.
#![tactic(auto)]

mod foot;
pub mod length;
mod lines;
mod pair;
mod place;
pub mod state;
mod token;
