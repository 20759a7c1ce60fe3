// Sowing the default starts of a problem.
#![tactic(auto)]

ghost use Rattle.std.specs.Prelude.{◌≡◌};
ghost use Rattle.paths.specs.Handing.{handed_by};
ghost use Rattle.starts.specs.Sown.{given_starts, sown_all, Carries};
ghost use Rattle.table.specs.Own.{OwnFields};
ghost use Rattle.table.specs.State.{state, spare};
ghost use Rattle.table.specs.Told.{CountsStay};

use flow::interface::Problem;
use listing::program::Program;
use paths::analysis::Analysis;
use table::state::OpenTable;

// Sows the default starts that a problem can give, in order. One that is out of range is not accepted.
#[tactic(auto, using(crate::proofs::Sowing::begun))]
pub fn sow_starts<P: Program, Q: Problem>(table: &mut OpenTable, on: &Analysis<P, Q>)
    ensures after { state table.new ≡ sown_all (handed_by P.Program Q.Problem on.now) (given_starts (Q.starts on.now.problem.now)) (state table.old) }
    ensures counts { CountsStay (state table.old) (state table.new) }
    ensures carries { Carries (handed_by P.Program Q.Problem on.now) (given_starts (Q.starts on.now.problem.now)) (state table.old) (state table.new) }
    ensures own { OwnFields (state table.new) table.new.core.records.items }
    ensures spare { spare table.new.core ≡ spare table.old.core }
{
    // over `(0..=u8::MAX).map_while(..)` the proof did not close: an item is then known by the calls of `next`, not by its number
    for i in 0..=u8::MAX {
        let Some(start) = on.problem.start(i) else {
            return;
        };
        let _ = table.sow(on, start.procedure, start.fact);
    }
}
