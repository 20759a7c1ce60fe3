// The calls by which an open table is filled.
ghost use Rattle.std.specs.Prelude.{◌≡◌, ◌+◌, ◌*◌, ◌<◌, ◌≤◌, true, not, IfOk, OnErr, OnOk};
ghost use Rattle.paths.specs.Does.{counts_fit, Sows, Works};
ghost use Rattle.paths.specs.Handing.{handed_by};
ghost use Rattle.moves.specs.declared.moves.Kind.TheVariants as kind;
ghost use Rattle.paths.specs.Table.{cell, number_of};
ghost use Rattle.paths.specs.Tabled.{find, is_found, work};
ghost use Rattle.table.specs.Own.{OwnFields};
ghost use Rattle.table.specs.Seen.{Recalls};
ghost use Rattle.table.specs.State.{inner, state, spare, Kept, Serves};
ghost use Rattle.table.specs.Settling.{Enters};
ghost use Rattle.table.specs.Told.{one_if_yes, number_given, CountsStay, Stops, Portions};

use crate::seen::Seen;
use crate::sites::Lead;
use crate::state::{Core, Open, Staged};
use flow::interface::Problem;
use listing::numbers::{Fact, Point, Proc};
use listing::program::Program;
use paths::analysis::Analysis;
use paths::worklist::End;
use records::fault::Fault;

// So many cells are settled before any statement is kept: clearing the memory for them takes as long as reading some of them again.
const SETTLED_FIRST: u32 = 32;

// A program has so many points at most.
const POINTS: usize = 1000;

// The entry of a procedure, if the program has it.
fn entry_of<P: Program>(program: &P, p: Proc) -> Option<Point>
    ensures { Enters (P.meaning program.now) p result }
{
    program.entry(p)
}

impl Core {
    // Whether N and F are the table's.
    fn serves<P: Program, Q: Problem>(&self, on: &Analysis<P, Q>) -> bool
        ensures value { result ≡ counts_fit (handed_by P.Program Q.Problem on.now) (inner self.now) }
        ensures counts { result ≡ true → Serves (handed_by P.Program Q.Problem on.now) self.now }
    {
        on.program.counts().points == self.points && on.problem.facts() == self.facts
    }

    // Finds the cell of an entry with a fact, as a start: whether it is new.
    fn start(&mut self, entry: Point, d: Fact) -> bool
        requires point { entry.0 < self.old.points }
        requires fact { d.0 < self.old.facts }
        ensures new { result ≡ not (is_found (number_of self.old.facts (cell entry.0 d.0 d.0)) (inner self.old)) }
        ensures after { inner self.new ≡ find kind.Start 0 0 (number_of self.old.facts (cell entry.0 d.0 d.0)) (inner self.old) }
        ensures kept { Kept self.old self.new }
    {
        let block = self.block(entry, d);
        let new = !self.is_found(self.cell(block, d));
        self.find(block, d, Lead::Start);
        new
    }

    // Settles up to k cells, taken from an end of the row, while one waits; gives their number.
    fn settle_some<P: Program, Q: Problem>(&mut self, on: &Analysis<P, Q>, k: u32, end: End) -> u32
        requires { Serves (handed_by P.Program Q.Problem on.now) self.old }
        ensures count { (inner self.new).settled ≡ (inner self.old).settled + result }
        ensures after { inner self.new ≡ (let h = handed_by P.Program Q.Problem on.now in work h.graph h.rule h.points h.facts k end (inner self.old)) }
        ensures counts { CountsStay (inner self.old) (inner self.new) }
        ensures stops { Stops k result (inner self.new).waiting }
        ensures portions { Portions (handed_by P.Program Q.Problem on.now) k end (inner self.old) (inner self.new) }
        ensures spare { spare self.new ≡ spare self.old }
    {
        let first = self.settle_each(on, &mut Seen::over(&mut []), k.min(SETTLED_FIRST), end);
        if first < SETTLED_FIRST || first == k {
            return first;
        }
        let mut statements = [None; POINTS];
        first + self.settle_each(on, &mut Seen::over(&mut statements), k - first, end)
    }

    // The same, with the statements that were read, to which those are added that it reads.
    fn settle_each<P: Program, Q: Problem>(
        &mut self,
        on: &Analysis<P, Q>,
        seen: &mut Seen,
        k: u32,
        end: End,
    ) -> u32
        requires recalls { Recalls (P.meaning on.now.program.now) seen.old }
        requires serves { Serves (handed_by P.Program Q.Problem on.now) self.old }
        ensures count { (inner self.new).settled ≡ (inner self.old).settled + result }
        ensures after { inner self.new ≡ (let h = handed_by P.Program Q.Problem on.now in work h.graph h.rule h.points h.facts k end (inner self.old)) }
        ensures counts { CountsStay (inner self.old) (inner self.new) }
        ensures stops { Stops k result (inner self.new).waiting }
        ensures portions { Portions (handed_by P.Program Q.Problem on.now) k end (inner self.old) (inner self.new) }
        ensures spare { spare self.new ≡ spare self.old }
    {
        for done in 0..k {
            let Some(cell) = self.take(end) else {
                return done;
            };
            self.settle(on, seen, cell);
        }
        k
    }
}

impl Staged<Open> {
    // Finds the cell of a procedure's entry with a fact, as a start: whether it is new. The start is accepted either way.
    #[tactic(auto, using(crate::proofs::Owning::own_fields))]
    pub fn sow<P: Program, Q: Problem>(
        &mut self,
        on: &Analysis<P, Q>,
        p: Proc,
        d: Fact,
    ) -> Result<bool, Fault>
        ensures sows { Sows (handed_by P.Program Q.Problem on.now) p.0 d.0 (state self.old) (one_if_yes result) (state self.new) }
        ensures counts { CountsStay (state self.old) (state self.new) }
        ensures refused { OnErr result (self.new ≡ self.old) }
        ensures own { OwnFields (state self.new) self.new.core.records.items }
        ensures spare { spare self.new.core ≡ spare self.old.core }
    {
        if !self.core.serves(on) {
            return Err(Fault::Counts);
        }
        let entry = entry_of(on.program, p).ok_or(Fault::Range)?;
        if d.0 >= on.problem.facts() {
            return Err(Fault::Range);
        }
        Ok(self.core.start(entry, d))
    }

    // Settles up to k cells, taken from an end of the row, while one waits; gives their number.
    #[tactic(auto, using(crate::proofs::Owning::own_fields))]
    pub fn work<P: Program, Q: Problem>(
        &mut self,
        on: &Analysis<P, Q>,
        k: u32,
        end: End,
    ) -> Result<u32, Fault>
        ensures works { Works (handed_by P.Program Q.Problem on.now) k end (state self.old) (number_given result) (state self.new) }
        ensures counts { CountsStay (state self.old) (state self.new) }
        ensures count { IfOk result (λ n. (state self.new).settled ≡ (state self.old).settled + n) }
        ensures stops { IfOk result (λ n. Stops k n (state self.new).waiting) }
        ensures bound { let t = state self.new in t.settled ≤ t.points * t.facts * t.facts }
        ensures portions { OnOk result (Portions (handed_by P.Program Q.Problem on.now) k end (state self.old) (state self.new)) }
        ensures refused { OnErr result (self.new ≡ self.old) }
        ensures own { OwnFields (state self.new) self.new.core.records.items }
        ensures spare { spare self.new.core ≡ spare self.old.core }
    {
        if !self.core.serves(on) {
            return Err(Fault::Counts);
        }
        Ok(self.core.settle_some(on, k, end))
    }
}
