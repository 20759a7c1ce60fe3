// A walk back along a trail, from a found cell to a start.
ghost use Rattle.std.specs.Prelude.{◌*◌, ◌<◌, ◌≤◌, length};
ghost use Rattle.table.specs.State.{state};
ghost use Rattle.trail.specs.Stride.{Enters, Strides, Within};

use moves::moves::{Kind, Move};
use records::record::Record;
use stack::{Full, pop, push};
use table::arrival::Arrival;
use table::state::ClosedTable;

// Where a walk is: at a cell, and in so many callees. A memory that the caller lends holds the record of the return from each of these, the
// latest on top.
#[derive(Clone, Copy)]
pub(crate) struct Walk {
    pub cell: u32,
    pub height: usize,
}

// A move of a trail, and where the walk is before it, if the path does not begin with it.
#[derive(Clone, Copy)]
pub(crate) struct Stride {
    pub arrives: Move,
    pub before: Option<Walk>,
}

impl Walk {
    // Goes back over the move to an entry: inside a callee over the call that led in, and else as the entry's record says.
    #[tactic(auto, using(crate::proofs::Calls::none_open))]
    fn enter(self, calls: &[Record], outside: Stride) -> Stride
        requires height { self.height ≤ length calls.now }
        requires within { Within calls.now outside.before }
        ensures { Enters self calls.now outside result }
    {
        match pop(calls, self.height) {
            Some((record, height)) => Stride {
                arrives: Move {
                    kind: Kind::Call,
                    ..outside.arrives
                },
                before: Some(Walk {
                    cell: record.first,
                    height,
                }),
            },
            None => outside,
        }
    }

    // Goes back over the move to the cell. It is refused where that leads into another callee, and there is no room for its record.
    pub(crate) fn back(self, table: &ClosedTable, calls: &mut [Record]) -> Result<Stride, Full>
        requires cell { let t = state table.now in self.cell < t.points * t.facts * t.facts }
        requires height { self.height ≤ length calls.old }
        ensures { Strides (state table.now) self calls.old result calls.new }
    {
        let Arrival {
            point,
            fact,
            record,
        } = table.arrival(self.cell).unwrap();
        let kind = record.kind.unwrap_or(Kind::Start);
        let before = match kind {
            Kind::Start => None,
            Kind::Step | Kind::Past | Kind::Call => Some(Walk {
                cell: record.first,
                ..self
            }),
            Kind::Return => Some(Walk {
                cell: record.second,
                height: push(calls, self.height, record)?,
            }),
        };
        let stride = Stride {
            arrives: Move { kind, point, fact },
            before,
        };
        match kind {
            Kind::Start | Kind::Call => Ok(self.enter(calls, stride)),
            Kind::Step | Kind::Past | Kind::Return => Ok(stride),
        }
    }
}
