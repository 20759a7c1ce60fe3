// Settling a cell.
ghost use Rattle.std.specs.Prelude.{◌≡◌};
ghost use Rattle.paths.specs.Handing.{handed_by};
ghost use Rattle.paths.specs.Tabled.{cell_at, settle};
ghost use Rattle.table.specs.Seen.{Recalls};
ghost use Rattle.table.specs.Settling.{Calls};
ghost use Rattle.table.specs.State.{inner, Found, Kept, Serves};

use crate::seen::Seen;
use crate::sites::{CallSite, Callee, Site};
use crate::state::Core;
use flow::interface::Problem;
use listing::numbers::Proc;
use listing::program::Program;
use listing::statement::Statement;
use paths::analysis::Analysis;

// Where a procedure is entered and left, and what it returns.
fn callee_of<P: Program>(program: &P, seen: &mut Seen, p: Proc) -> Option<Callee>
    requires { Recalls (P.meaning program.now) seen.old }
    ensures callee { Calls (P.meaning program.now) p result }
    ensures recalls { Recalls (P.meaning program.now) seen.new }
{
    let entry = program.entry(p)?;
    let exit = program.exit(p)?;
    let Statement::Ret { from } = seen.statement(program, exit)? else {
        return None;
    };
    Some(Callee {
        entry,
        exit,
        result: from,
    })
}

impl Core {
    // Settles a cell: finds what follows from it at once.
    pub(super) fn settle<P: Program, Q: Problem>(
        &mut self,
        on: &Analysis<P, Q>,
        seen: &mut Seen,
        cell: u32,
    )
        requires recalls { Recalls (P.meaning on.now.program.now) seen.old }
        requires serves { Serves (handed_by P.Program Q.Problem on.now) self.old }
        requires found { Found self.old cell }
        ensures kept { Kept self.old self.new }
        ensures after { let h = handed_by P.Program Q.Problem on.now in inner self.new ≡ settle h.graph h.rule h.points h.facts (cell_at h.facts cell) (inner self.old) }
        ensures recalls { Recalls (P.meaning on.now.program.now) seen.new }
    {
        let spot = self.spot(cell);
        let Some(statement) = seen.statement(on.program, spot.point) else {
            return;
        };
        let site = Site {
            spot,
            cell,
            statement,
        };
        match statement {
            Statement::Call { callee, .. } => {
                let Some(callee) = callee_of(on.program, seen, callee) else {
                    return;
                };
                self.settle_call(on.problem, CallSite { site, callee });
            }
            Statement::Ret { from } => self.settle_ret(on, seen, site, from),
            _ => self.settle_plain(on.problem, site),
        }
    }
}
