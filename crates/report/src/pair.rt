// A pair of a table.

use listing::numbers::{Fact, Point};

// The pair of a point and a fact, with its number, n × F + d.
#[derive(Clone, Copy)]
pub(crate) struct Pair {
    pub number: u32,
    pub point: Point,
    pub fact: Fact,
}
