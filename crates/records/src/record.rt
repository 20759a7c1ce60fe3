// What a table keeps of each of its cells.
ghost use Rattle.std.specs.Prelude.{◌≡◌, replicate, IfOk};
ghost use Rattle.records.specs.Blank.{blank};

use fact_set::FactSet;
use moves::moves::Kind;
use std::alloc::{AllocError, Global};

// How a cell was found. The format of a record is a rule of the project: rank, kind, first and second, with 0 for a rank or a cell that is
// not there.
#[derive(Clone, Copy)]
pub struct Record {
    // the cell was found as the one of this number, from 1; 0 where it is not found
    pub rank: u32,
    pub kind: Option<Kind>,
    // the cell from which the move came, and for a return the cell at the callee's exit
    pub first: u32,
    pub second: u32,
    // the table's own: the row of the cells that wait lies in these
    pub slot: u32,
    // the table's own: in record n × F + a, the facts d whose cell (n, a, d) is found
    pub found: FactSet,
}

impl Record {
    // The record of a cell that is not found. The format fixes each of its fields, so they are written out here and not derived.
    pub fn blank() -> Record
        ensures { result ≡ blank }
    {
        Record {
            rank: 0,
            kind: None,
            first: 0,
            second: 0,
            slot: 0,
            found: FactSet::empty(),
        }
    }

    // So many records, each of a cell that is not found.
    pub fn blanks(heap: Global, count: usize) -> Result<Vec<Record>, AllocError>
        ensures { IfOk result (λ v. v.items ≡ replicate count blank) }
    {
        vec![in heap; Record::blank(); count]
    }
}
