// An index of procedures: that of each point, and the exit of each.
ghost use Rattle.std.specs.Prelude.{ℕ, ◌<◌, ◌≤◌};
ghost use Rattle.std.specs.Option.{ForSome};
ghost use Rattle.draft.specs.Told.{told};

use listing::numbers::{Point, Proc};

mod indexing;
mod lookups;

pub(crate) use self::indexing::{index, is_ret};

pub const MOST_POINTS: usize = 1000;

pub const MOST_PROCEDURES: usize = 60;

// Arrays of fixed length, with the number of procedures beside them: a reading allocates nothing.
#[derive(Clone, Copy)]
pub struct Procedures {
    homes: [Option<Proc>; MOST_POINTS],
    exits: [Option<Point>; MOST_PROCEDURES],
    count: u16,
    ghost few: { count ≤ 60 },
    ghost inside: { (p : ℕ) → ForSome (told exits p) (λ n. n.0 < 1000) },
}
