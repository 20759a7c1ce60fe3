// The calls, as `include/jathrungi.h` declares them.
ghost use Rattle.exports.specs.Answers.{Answers};
ghost use Rattle.exports.specs.Counted.{CountOfAll, CountOfUnset};
ghost use Rattle.exports.specs.Sheets.{Sheet};

use crate::answer::Answer;
use crate::on_page::sheet_on;
use crate::settling::{count_of_all, count_of_unset};
use std::alloc::Global;

// Writes the sheet of a listing at the front of a page, and gives how many bytes it took. On any no the page is as it was.
#[unsafe(no_mangle)]
pub extern "C" fn jathrungi_sheet(alloc: Global, listing: &[u8], page: &mut [u8]) -> Answer
    ensures { Answers (Sheet listing.now page.old page.new) result }
{
    sheet_on(alloc, listing, page).answer()
}

// Settles every cell, the oldest first, from procedure 0 with every fact, over the relation that bytes give, and gives how many there are.
#[unsafe(no_mangle)]
pub extern "C" fn jathrungi_settle_all(
    alloc: Global,
    listing: &[u8],
    relation: &[u8],
    facts: u8,
) -> Answer
    ensures { Answers (CountOfAll listing.now relation.now facts) result }
{
    count_of_all(alloc, listing, relation, facts).answer()
}

// The same of the problem unset, from its default starts.
#[unsafe(no_mangle)]
pub extern "C" fn jathrungi_settle_unset(alloc: Global, listing: &[u8]) -> Answer
    ensures { Answers (CountOfUnset listing.now) result }
{
    count_of_unset(alloc, listing).answer()
}
