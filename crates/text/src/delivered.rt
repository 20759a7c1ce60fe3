// A text whose lines have their form, with the places of its statements: not yet known to be lawful.
ghost use Rattle.std.specs.Prelude.{◌≡◌, ℕ, ◌+◌, ◌<◌, ◌≤◌, true, false, length, is_some, nat_le, slice_index};
ghost use Rattle.text.specs.Lines.{lines, place};
ghost use Rattle.text.specs.Reading.{counted, written, flow_of, misformed};

use crate::survey::MOST_LINES;
use listing::cells::CellCounts;

mod lookups;

// An array of a fixed length, with the number of statements beside it: reading allocates nothing.
#[derive(Clone, Copy)]
pub(crate) struct Delivered<'a> {
    pub bytes: &'a [u8],
    pub starts: [u16; MOST_LINES],
    pub points: u16,
    pub cells: CellCounts,
    ghost whole: { is_some (misformed bytes.now) ≡ false },
    ghost short: { nat_le (length (flow_of bytes.now)) 1000 ≡ true },
    ghost counts: { points ≡ length (written bytes.now) },
    ghost globals: { cells.globals ≡ (counted bytes.now).globals },
    ghost locals: { cells.locals ≡ (counted bytes.now).locals },
    ghost placed: { (k : ℕ) → k < points → slice_index starts (k + 1) ≡ place (k + 1) (lines bytes.now) },
}
