// A text at a report's place of a page.
ghost use Rattle.std.specs.Prelude.{◌≡◌};
ghost use Rattle.paths.specs.Page.{line_text, foot_text};
ghost use Rattle.report.specs.Told.{told, Puts};

use crate::pair::Pair;
use page::{write_foot, write_line};
use records::fault::Fault;

// Writes a pair's line at a place of a page, and gives how many bytes it took.
pub(crate) fn put_line(page: &mut [u8], place: usize, pair: Pair) -> Result<usize, Fault>
    ensures { Puts (line_text (told pair)) place page.old result page.new }
{
    if place > page.len() {
        return Err(Fault::Full);
    }
    write_line(&mut page[place..], pair.point, pair.fact).ok_or(Fault::Full)
}

// Writes the foot at a place of a page, and gives how many bytes it took.
#[tactic(auto, using(crate::proofs::Places::placed))]
pub(crate) fn put_foot(
    page: &mut [u8],
    place: usize,
    pairs: u32,
    cells: u32,
) -> Result<usize, Fault>
    ensures { Puts (foot_text pairs cells) place page.old result page.new }
{
    if place > page.len() {
        return Err(Fault::Full);
    }
    write_foot(&mut page[place..], pairs, cells).ok_or(Fault::Full)
}
