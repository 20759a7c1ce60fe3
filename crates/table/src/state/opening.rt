// Opening a table, closing it, opening it again, and ending it.
ghost use Rattle.std.specs.Prelude.{◌≡◌, ◌+◌, ◌*◌, ◌≤◌, ◌++◌, drop, length, map, replicate, vec_len, IfOk, MatchResult};
ghost use Rattle.paths.specs.Does.{Closes};
ghost use Rattle.paths.specs.Handing.{handed_by};
ghost use Rattle.records.specs.Blank.{blank};
ghost use Rattle.table.specs.Own.{OwnFields};
ghost use Rattle.table.specs.State.{rec, state, spare};
ghost use Rattle.table.specs.Told.{NewlyMade, Opens, closed, left_closed, SameCore, tallied};

use crate::state::{Closed, ClosedTable, Core, Open, OpenTable, Stage, Staged};
use flow::interface::Problem;
use listing::program::Program;
use paths::analysis::Analysis;
use records::fault::{Fault, Refusal};
use records::record::Record;
use records::tallies::Tallies;
use std::marker::PhantomData;

// Clears the first records.
fn clear(records: &mut [Record], size: usize)
    requires { size ≤ length records.old }
    ensures { records.new ≡ replicate size blank ++ drop size records.old }
{
    records[..size].fill(Record::blank());
}

// How many records a table of a program and a problem needs.
pub fn records_for<P: Program, Q: Problem>(on: &Analysis<P, Q>) -> u32
    ensures { let h = handed_by P.Program Q.Problem on.now in result ≡ h.points * h.facts * h.facts }
{
    let points = on.program.counts().points;
    let facts = on.problem.facts();
    u32::from(points) * u32::from(facts) * u32::from(facts)
}

// A table in a memory, whose first records are cleared.
fn cleared<P: Program, Q: Problem>(memory: Vec<Record>, on: &Analysis<P, Q>, size: u32) -> Core
    requires size { let h = handed_by P.Program Q.Problem on.now in size ≡ h.points * h.facts * h.facts }
    requires room { size ≤ vec_len memory }
    ensures { NewlyMade (handed_by P.Program Q.Problem on.now) memory result }
{
    let mut records = memory;
    clear(records.as_mut_slice(), size as usize);
    Core {
        records,
        points: on.program.counts().points,
        facts: on.problem.facts(),
        size,
        found: 0,
        head: 0,
        tail: 0,
    }
}

impl Staged<Open> {
    // Opens a table in a memory that has a record for each of its cells. The first records are cleared, the rest stay; a memory that is
    // too short comes back as it was.
    #[tactic(auto, using(crate::proofs::Owning::own_fields))]
    pub fn open<P: Program, Q: Problem>(
        memory: Vec<Record>,
        on: &Analysis<P, Q>,
    ) -> Result<OpenTable, Refusal<Vec<Record>>>
        ensures opens { Opens (handed_by P.Program Q.Problem on.now) memory result }
        ensures own { IfOk result (λ t. OwnFields (state t) t.core.records.items) }
    {
        let size = records_for(on);
        if memory.len() < size as usize {
            return Err(Refusal {
                fault: Fault::Memory,
                back: memory,
            });
        }
        Ok(OpenTable {
            core: cleared(memory, on, size),
            stage: PhantomData,
        })
    }

    // Closes the table, unless a cell still waits.
    #[tactic(auto, using(crate::proofs::Owning::own_fields))]
    pub fn close(self) -> Result<ClosedTable, Refusal<OpenTable>>
        ensures closes { Closes (state self) (closed result) (left_closed result) }
        ensures same { SameCore self.core result }
        ensures own { MatchResult result (λ t. OwnFields (state t) t.core.records.items) (λ e. OwnFields (state e.back) e.back.core.records.items) }
    {
        if self.core.any_waits() {
            return Err(Refusal {
                fault: Fault::Waiting,
                back: self,
            });
        }
        Ok(ClosedTable {
            core: self.core,
            stage: PhantomData,
        })
    }
}

impl Staged<Closed> {
    // Opens the table again.
    #[tactic(auto, using(crate::proofs::Owning::own_fields))]
    pub fn reopen(self) -> OpenTable
        ensures same { result.core ≡ self.core }
        ensures own { OwnFields (state result) result.core.records.items }
    {
        let core = self.core;
        OpenTable {
            core,
            stage: PhantomData,
        }
    }
}

impl<S: Stage> Staged<S> {
    // How many cells are found, settled and waiting.
    pub fn tallies(&self) -> Tallies
        ensures value { result ≡ tallied (state self.now) }
        ensures sum { result.found ≡ result.settled + result.waiting }
        ensures bound { result.found ≤ (state self.now).points * (state self.now).facts * (state self.now).facts }
    {
        let found = self.core.found;
        let waiting = self.core.waiting();
        Tallies {
            found,
            settled: found - waiting,
            waiting,
        }
    }

    // Ends the table, and gives the memory back.
    #[tactic(auto, using(crate::proofs::Owning::own_fields))]
    pub fn end(self) -> Vec<Record>
        ensures memory { result ≡ self.core.records }
        ensures records { map rec result.items ≡ (state self).records }
        ensures own { OwnFields (state self) result.items }
        ensures spare { drop ((state self).points * (state self).facts * (state self).facts) result.items ≡ spare self.core }
    {
        self.core.records
    }
}
