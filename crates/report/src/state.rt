// A report that is begun.
ghost use Rattle.std.specs.Prelude.{◌≡◌, ◌*◌, ◌≤◌, true, false, length};
ghost use Rattle.table.specs.State.{state};
ghost use Rattle.report.specs.Pairs.{pairs_before};

use crate::token::Token;
use table::state::{Stage, Staged};

// A table that is closed, the number of the pair from which the next line is looked for, how many lines are written, and the page's next free
// place. The token is spent where the report gets its foot or is abandoned; until then it cannot be dropped.
#[derive(Drop)]
pub struct Report<S: Stage> {
    pub(crate) table: Staged<S>,
    pub(crate) next: u32,
    pub(crate) lines: u32,
    pub(crate) place: usize,
    pub(crate) token: Token,
    ghost closed: { S.closed ≡ true },
    ghost within: { next ≤ (state table).points * (state table).facts },
    ghost counted: { lines ≡ length (pairs_before next (state table)) },
    ghost owed: { token.spent ≡ false },
}

// What a report's foot gives: the table back, and the place after the foot.
#[derive(Drop)]
pub struct Footed<S: Stage> {
    pub table: Staged<S>,
    pub end: usize,
    ghost closed: { S.closed ≡ true },
}
