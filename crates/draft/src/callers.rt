// An index of calls: the first of each procedure, and after each call the next of the same procedure.
mod indexing;
mod lookups;

pub use self::indexing::index_calls;
use crate::procedures::{MOST_POINTS, MOST_PROCEDURES};
use listing::numbers::Point;

// Arrays of fixed length and calls by their points: a reading allocates nothing.
#[derive(Clone, Copy)]
pub struct Callers {
    first: [Option<Point>; MOST_PROCEDURES],
    next: [Option<Point>; MOST_POINTS],
}
