// A problem given by its table.
ghost use Rattle.std.specs.Prelude.{◌≡◌, ◌≤◌};

use crate::fault::{Fault, Refusal};
use crate::rows::{facts_in, row_number};
use fact_set::FactSet;
use flow::edge::Edge;
use flow::interface::{Problem, Start};
use listing::numbers::{Fact, Proc};

// So many facts, and for each point, for each kind of edge, a row for each fact: which facts follow from it. Any relation may be given so, and
// nothing is known of zero. The rows are owned, since a type with a lifetime cannot give a trait's constant yet.
#[derive(Drop)]
pub struct TabledProblem {
    rows: Vec<u64>,
    facts: u8,
    ghost some: { 1 ≤ facts },
    ghost few: { facts ≤ 64 },
}

impl TabledProblem {
    ghost use Rattle.std.specs.Prelude.{true, false, MatchResult};
    ghost use Rattle.tabled_problem.specs.Rows.{count_in_range};
    ghost use Rattle.tabled_problem.specs.declared.fault.Fault.TheVariants.{Facts};

    // The problem of so many facts that the rows give, if there may be so many facts; else the rows come back.
    pub fn new(rows: Vec<u64>, facts: u8) -> Result<TabledProblem, Refusal>
        ensures { MatchResult result
            (λ q. (count_in_range facts ≡ true) × (q.rows.items ≡ rows.items) × (q.facts ≡ facts))
            (λ e. (count_in_range facts ≡ false) × (e.fault ≡ Facts) × (e.back ≡ rows)) }
    {
        if (1..=64).contains(&facts) {
            Ok(TabledProblem { rows, facts })
        } else {
            Err(Refusal {
                fault: Fault::Facts,
                back: rows,
            })
        }
    }
}

impl Problem for TabledProblem {
    ghost use Rattle.std.specs.Prelude.{false};
    ghost use Rattle.std.proofs.Common.{rules};
    ghost use Rattle.flow.specs.CellFacts.{from_each};
    ghost use Rattle.tabled_problem.specs.Rows.{tabled, itself};

    type Item = Fact;

    // of no problem that is known by a number
    const NUMBER: u8 = 255;

    ghost NUMBER = { 255 };

    ghost count = { λ q. q.facts };

    ghost relation = { λ q. tabled q.rows.items q.facts };

    ghost stands = { λ q. itself q.facts };

    ghost starts = { λ q. from_each 0 q.facts };

    ghost joinable = { false };

    ghost few = { Prim.search rules };

    ghost within = { Prim.search rules };

    ghost zero = { Prim.search rules };

    fn facts(&self) -> u8 {
        self.facts
    }

    // A fact stands for itself.
    fn item(&self, d: Fact) -> Option<Fact> {
        (d.0 < self.facts).then_some(d)
    }

    // Procedure 0 with each fact, by number.
    #[tactic(auto, using(flow::proofs::Starts::start_at))]
    fn start(&self, i: u8) -> Option<Start> {
        let start = Start {
            procedure: Proc(0),
            fact: Fact(i),
        };
        (i < self.facts).then_some(start)
    }

    fn follows(&self, edge: Edge, d: Fact, e: Fact) -> bool {
        self.targets(edge, d).has(e)
    }

    fn targets(&self, edge: Edge, d: Fact) -> FactSet {
        if edge.exists() && d.0 < self.facts {
            let row = row_number(self.facts, edge, d);
            facts_in(self.rows.as_slice(), row).intersection(FactSet::below(self.facts))
        } else {
            FactSet::empty()
        }
    }
}
