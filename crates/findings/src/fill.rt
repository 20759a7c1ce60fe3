// A table of a program and a problem, filled.
ghost use Rattle.std.specs.Prelude.{◌≡◌, ◌*◌, true, map, vec_items};
ghost use Rattle.paths.specs.Does.{counts_fit};
ghost use Rattle.paths.specs.Handing.{handed_by};
ghost use Rattle.table.specs.State.{rec, state};
ghost use Rattle.table.specs.Told.{Memory, Opened};
ghost use Rattle.findings.specs.Outcome.{Settled, Settles};
ghost use Rattle.findings.specs.Written.{Returned};

use flow::interface::Problem;
use listing::program::Program;
use paths::analysis::Analysis;
use paths::worklist::End;
use records::fault::Refusal;
use records::record::Record;
use starts::sow_starts;
use table::state::{ClosedTable, OpenTable, records_for};

// Sows the default starts in a newly opened table, settles every cell, the oldest first, and closes the table.
fn settled<P: Program, Q: Problem>(table: OpenTable, on: &Analysis<P, Q>) -> ClosedTable
    requires { counts_fit (handed_by P.Program Q.Problem on.now) (state table) ≡ true }
    ensures settled { (memory : Memory) → Opened (handed_by P.Program Q.Problem on.now) memory table → Settled (handed_by P.Program Q.Problem on.now) (Q.starts on.now.problem.now) (map rec (vec_items memory)) (state result) }
    ensures returned { let h = handed_by P.Program Q.Problem on.now in (memory : Memory) → Opened h memory table → Returned (h.points * h.facts * h.facts) memory result.core.records }
{
    let mut table = table;
    sow_starts(&mut table, on);
    // one more than there are cells, so that it ends with none waiting
    let Ok(_) = table.work(on, records_for(on) + 1, End::Oldest) else {
        unreachable()
    };
    let Ok(table) = table.close() else {
        unreachable()
    };
    table
}

// A table in a memory, with the default starts sown and every cell settled, the oldest first. A memory that is too short comes back as it was.
pub fn settle_all<P: Program, Q: Problem>(
    memory: Vec<Record>,
    on: &Analysis<P, Q>,
) -> Result<ClosedTable, Refusal<Vec<Record>>>
    ensures { Settles (handed_by P.Program Q.Problem on.now) (Q.starts on.now.problem.now) memory result }
{
    let table = OpenTable::open(memory, on)?;
    Ok(settled(table, on))
}
