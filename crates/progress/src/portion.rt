// How many cells are settled at a time.
ghost use Rattle.std.specs.Prelude.{ℕ, ◌<◌};

mod making;

use paths::worklist::End;

// At least one cell.
#[derive(Clone, Copy)]
pub struct Portion {
    pub(crate) size: u32,
    ghost some: { 0 < size },
}

// The pace of a tabulation: how many cells are settled at a time, and the end of the row from which they are taken.
#[derive(Clone, Copy)]
pub struct Pace {
    pub portion: Portion,
    pub from: End,
}
