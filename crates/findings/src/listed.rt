// The reports of a listing, under both problems about cells.
ghost use Rattle.std.specs.Prelude.{◌≡◌, IfOk, string_bytes};
ghost use Rattle.findings.specs.Listed.{told_of, ListingTold};
ghost use Rattle.findings.specs.Rooms.{sheet_room};

use crate::lent::write_sheet;
use crate::room::Room;
use records::record::Record;
use std::alloc::{AllocError, Global};

// A problem's heading, and the line that tells why it has no report, have no more bytes.
const HEADING_AND_REFUSAL: usize = 108;

// Reads a listing and tells the reports of both problems about its cells, or the refusal of the listing.
pub fn report_listing(heap: Global, bytes: &[u8], room: Room) -> Result<String, AllocError>
    ensures text { IfOk result (λ s. string_bytes s ≡ told_of bytes.now room) }
    ensures law { IfOk result (λ s. ListingTold bytes.now room (string_bytes s)) }
{
    let memory = Record::blanks(heap, room.records)?;
    let size = room
        .page
        .saturating_add(HEADING_AND_REFUSAL)
        .saturating_mul(2);
    let mut page = vec![in heap; 0u8; size]?;
    // a sheet has no more bytes than the page
    let Ok(written) = write_sheet(memory, page.as_mut_slice(), bytes, room.page) else {
        unreachable()
    };
    page.truncate(written.count);
    let Ok(text) = String::from_utf8(page) else {
        unreachable()
    };
    Ok(text)
}

// The sheet of a listing: the same, in the room of a sheet.
pub fn sheet(heap: Global, bytes: &[u8]) -> Result<String, AllocError>
    ensures text { IfOk result (λ s. string_bytes s ≡ told_of bytes.now sheet_room) }
    ensures law { IfOk result (λ s. ListingTold bytes.now sheet_room (string_bytes s)) }
{
    report_listing(heap, bytes, Room::of_sheet())
}
