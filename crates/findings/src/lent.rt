// The reports of a listing at the front of a page that is lent, under both problems about cells. Nothing is allocated.
ghost use Rattle.std.specs.Prelude.{◌≡◌, ◌≤◌, ◌+◌, ◌*◌, length, OnOk};
ghost use Rattle.std.specs.Str.{IsUtf8};
ghost use Rattle.findings.specs.Listed.{both_told, told_of, taken_of, records_taken, Told, ListingTold};
ghost use Rattle.findings.specs.Rooms.{sheet_most};
ghost use Rattle.findings.specs.Told.{room_in};
ghost use Rattle.findings.specs.Written.{Fronts};

use crate::told::{problem_len, write_problem};
use crate::written::{Written, write_refused};
use flow::cells::{CellCounts, CellProblem};
use flow::raw::Raw;
use flow::unset::Unset;
use listing::program::Program;
use paths::analysis::Analysis;
use records::fault::{Fault, Refusal};
use records::record::Record;
use text::text::Text;

// Writes the reports of both problems about the cells of a program, however it is kept, one after the other, at the front of a page. Each may
// take so many bytes. The second is written first, behind the place of the first, so that a page that is too short stays as it was.
pub fn write_reports<P: Program>(
    memory: Vec<Record>,
    program: &P,
    most: usize,
    page: &mut [u8],
) -> Result<Written, Refusal<Vec<Record>>>
    ensures text { Fronts (both_told (P.meaning program.now) (room_in memory most)) (taken_of (P.meaning program.now) (length memory.items)) memory page.old result page.new }
    ensures utf8 { OnOk result (IsUtf8 (both_told (P.meaning program.now) (room_in memory most))) }
    ensures law { OnOk result (Told (room_in memory most) (P.meaning program.now) (both_told (P.meaning program.now) (room_in memory most))) }
{
    let counts = CellCounts::of(program);
    let unset = &Analysis {
        program,
        problem: &CellProblem {
            counts,
            rule: Unset,
        },
    };
    let raw = &Analysis {
        program,
        problem: &CellProblem { counts, rule: Raw },
    };
    let (start, memory) = problem_len(memory, unset, most);
    if page.len() < start {
        return Err(Refusal {
            fault: Fault::Full,
            back: memory,
        });
    }
    let second = write_problem(memory, raw, most, &mut page[start..])?;
    let first = write_problem(second.memory, unset, most, page)?;
    Ok(Written {
        count: start + second.count,
        memory: first.memory,
    })
}

// Reads a listing and writes the reports of both problems about its cells, or the refusal of the listing, at the front of a page. Each report may
// take so many bytes, and the tables lie in the memory, which comes back. A text that does not fit the page is refused, 17 at 0, and the page
// stays as it was.
pub fn write_sheet(
    memory: Vec<Record>,
    page: &mut [u8],
    bytes: &[u8],
    most: usize,
) -> Result<Written, Refusal<Vec<Record>>>
    ensures text { Fronts (told_of bytes.now (room_in memory most)) (records_taken bytes.now (length memory.items)) memory page.old result page.new }
    ensures most { length (told_of bytes.now (room_in memory most)) ≤ sheet_most most }
    ensures utf8 { OnOk result (IsUtf8 (told_of bytes.now (room_in memory most))) }
    ensures law { OnOk result (ListingTold bytes.now (room_in memory most) (told_of bytes.now (room_in memory most))) }
{
    let mut text = Text::shortest();
    match text.read(bytes) {
        Ok(_) => write_reports(memory, &text, most, page),
        Err(refusal) => write_refused(memory, refusal.refused(), page),
    }
}
