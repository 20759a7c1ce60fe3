// The sheet of a listing on a page that is lent.
ghost use Rattle.std.specs.Prelude.{◌≡◌, Ok, length, IfOk, OnErr};
ghost use Rattle.listing.specs.Meaning.{Meaning};
ghost use Rattle.text.specs.Reading.{reading};
ghost use Rattle.exports.specs.Sheets.{Sheet};

use crate::answer::Outcome;
use findings::lent::write_sheet;
use findings::room::Room;
use records::record::Record;
use std::alloc::{AllocError, Global};
use text::text::Text;

// So many records, for a listing that is read; a refused one needs none.
fn memory_for(alloc: Global, listing: &[u8], records: usize) -> Result<Vec<Record>, AllocError>
    ensures enough { IfOk result (λ v. (m : Meaning) → reading listing.now ≡ Ok m → length v.items ≡ records) }
    ensures wanting { OnErr result ((m : Meaning) × (reading listing.now ≡ Ok m)) }
{
    match Text::shortest().read(listing) {
        Ok(_) => Record::blanks(alloc, records),
        Err(_) => Ok(Vec::new(alloc)),
    }
}

// Writes what is told of both problems about a listing's cells, or its refusal.
pub(crate) fn sheet_on(alloc: Global, listing: &[u8], page: &mut [u8]) -> Outcome
    ensures { Sheet listing.now page.old page.new result }
{
    let room = Room::of_sheet();
    let Ok(memory) = memory_for(alloc, listing, room.records) else {
        return Outcome::OutOfMemory;
    };
    match write_sheet(memory, page, listing, room.page) {
        Ok(written) => Outcome::Given(written.count),
        Err(refusal) => Outcome::Refused(refusal.fault.refused()),
    }
}
