// How a cell of a table was found.

use listing::numbers::{Fact, Point};
use records::record::Record;

// Where the move arrives that found a cell, and the cell's record.
#[derive(Clone, Copy)]
pub struct Arrival {
    pub point: Point,
    pub fact: Fact,
    pub record: Record,
}
