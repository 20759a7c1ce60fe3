// Problems about cells: a fact for each cell, beside zero.
ghost use Rattle.std.specs.Prelude.{◌≡◌, ℕ, ◌+◌, ◌<◌, ◌&&◌, nat_lt, nat_le, true};
ghost use Rattle.std.specs.List.{slice_get};
ghost use Rattle.fact_set.specs.Sets.{has};
ghost use Rattle.flow.specs.CellFacts.{facts_of, spoken, from_each};
ghost use Rattle.flow.specs.Guarded.{guarded_within, guarded_zero};
ghost use Rattle.flow.specs.Origins.{comes, over, ruled};
ghost use Rattle.std.proofs.Common.{arith, rules};

use crate::edge::Edge;
use crate::interface::{Problem, Start};
use crate::origin::{Origin, Transfer, cell_of};
use crate::rule::CellRule;
use fact_set::FactSet;
pub use listing::cells::CellCounts;
use listing::numbers::{Cell, Fact, Proc};
use listing::statement::Statement;

// A problem about cells, under a rule: fact c + 1 says of cell c what the rule is about.
#[derive(Clone, Copy)]
pub struct CellProblem<R> {
    pub counts: CellCounts,
    pub rule: R,
}

// Procedure 0 with each of the first facts, by number.
#[tactic(auto, using(crate::proofs::Starts::start_at))]
fn start_of(count: u8, i: u8) -> Option<Start>
    ensures { result ≡ slice_get (from_each 0 count) i }
{
    let start = Start {
        procedure: Proc(0),
        fact: Fact(i),
    };
    (i < count).then_some(start)
}

impl<R: CellRule> CellProblem<R> {
    fn is_global(&self, cell: Cell) -> bool
        ensures { result ≡ nat_lt cell.0 self.now.counts.globals }
    {
        cell.0 < self.counts.globals()
    }

    // Where the fact of a cell comes from over an edge.
    fn origin(&self, edge: Edge, cell: Cell) -> Origin
        ensures { (d : ℕ) → comes result d ≡ over self.now.counts.globals (R.transfers edge) R.other_locals edge d (cell.0 + 1) }
    {
        match edge {
            // that of the cell that has a transfer as it says, every other cell's from itself
            Edge::Step { .. } => match self.rule.transfer(edge) {
                Some(transfer) if transfer.to == cell => transfer.from,
                _ => Origin::One(cell),
            },
            // past a call: that of a local other than the call's own from itself
            Edge::Past {
                statement: Statement::Call { to, .. },
                ..
            } => {
                if cell == to || self.is_global(cell) {
                    Origin::Nothing
                } else {
                    Origin::One(cell)
                }
            }
            // into the callee: a global's from itself, local 0's from the argument's, another local's as the rule says
            Edge::Call {
                statement: Statement::Call { argument, .. },
                ..
            } => {
                if self.is_global(cell) {
                    Origin::One(cell)
                } else if cell == Cell(self.counts.globals()) {
                    Origin::One(argument)
                } else {
                    self.rule.other_locals()
                }
            }
            // back from the callee: the call's own cell's from the returned cell's, another global's from itself
            Edge::Return {
                statement: Statement::Call { to, .. },
                result,
                ..
            } => {
                if cell == to {
                    Origin::One(result)
                } else if self.is_global(cell) {
                    Origin::One(cell)
                } else {
                    Origin::Nothing
                }
            }
            _ => Origin::Nothing,
        }
    }

    // Zero, and the facts of the globals.
    #[tactic(auto, using(crate::proofs::Targets::up_to))]
    fn global_facts(&self) -> FactSet
        ensures { (e : ℕ) → has result e ≡ nat_le e self.now.counts.globals }
    {
        FactSet::below(self.counts.globals() + 1)
    }

    // The nonzero facts below 64 that follow from d over an edge; zero is left to the caller.
    fn cell_targets(&self, edge: Edge, d: Fact) -> FactSet
        requires { d.0 < 64 }
        ensures { (e : ℕ) → has result e ≡ (nat_lt e 64 && over self.now.counts.globals (R.transfers edge) R.other_locals edge d.0 e) }
    {
        let own = FactSet::only(d);
        let globals = self.global_facts();
        match edge {
            // a fact from itself, but that of the cell that has a transfer as it says
            Edge::Step { .. } => match self.rule.transfer(edge) {
                Some(transfer) => transfer.onto(own, d),
                None => own,
            },
            // past a call: a local's from itself, but that of the call's own from nothing
            Edge::Past {
                statement: Statement::Call { to, .. },
                ..
            } => {
                let from = Origin::Nothing;
                Transfer { to, from }.onto(own.difference(globals), d)
            }
            // into the callee: a global's from itself, local 0's from the argument's, another local's as the rule says
            Edge::Call {
                statement: Statement::Call { argument, .. },
                ..
            } => {
                let to = Cell(self.counts.globals());
                let from = Origin::One(argument);
                let kept = Transfer { to, from }.onto(own.intersection(globals), d);
                let other_locals = FactSet::below(64).from(self.counts.globals() + 2);
                if self.rule.other_locals().sources().has(d) {
                    kept.union(other_locals)
                } else {
                    kept
                }
            }
            // back from the callee: a global's from itself, but that of the call's own cell from the returned cell's
            Edge::Return {
                statement: Statement::Call { to, .. },
                result,
                ..
            } => {
                let from = Origin::One(result);
                Transfer { to, from }.onto(own.intersection(globals), d)
            }
            _ => FactSet::empty(),
        }
    }
}

impl<R: CellRule> Problem for CellProblem<R> {
    type Item = Cell;

    const NUMBER: u8 = R::NUMBER;

    ghost NUMBER = { R.NUMBER };

    ghost count = { λ q. facts_of q.counts };

    ghost relation = { λ q. ruled q.counts R.transfers R.other_locals };

    ghost stands = { λ q. spoken q.counts };

    ghost starts = { λ q. from_each 0 (R.starting_facts (facts_of q.counts)) };

    ghost joinable = { true };

    ghost few = { Prim.search rules };

    ghost within = { λ q. guarded_within _ _ };

    ghost zero = { λ j q. guarded_zero (facts_of q.counts) (λ x. over q.counts.globals (R.transfers x) R.other_locals x) (omega arith) };

    // F = G + L + 1
    fn facts(&self) -> u8 {
        self.counts.globals() + self.counts.locals() + 1
    }

    fn item(&self, d: Fact) -> Option<Cell> {
        if d.0 < self.facts() { cell_of(d) } else { None }
    }

    fn start(&self, i: u8) -> Option<Start> {
        start_of(self.rule.starting_facts(self.facts()), i)
    }

    fn follows(&self, edge: Edge, d: Fact, e: Fact) -> bool {
        self.sources(edge, e).has(d)
    }

    fn targets(&self, edge: Edge, d: Fact) -> FactSet {
        let facts = self.facts();
        if !edge.exists() || d.0 >= facts {
            return FactSet::empty();
        }
        // zero follows from zero alone
        let zero = FactSet::only(d).intersection(FactSet::only(Fact(0)));
        let nonzero = self.cell_targets(edge, d).from(1);
        zero.union(nonzero).intersection(FactSet::below(facts))
    }

    fn sources(&self, edge: Edge, e: Fact) -> FactSet {
        let facts = self.facts();
        if !edge.exists() || e.0 >= facts {
            return FactSet::empty();
        }
        let origin = match cell_of(e) {
            None => Origin::Zero,
            Some(cell) => self.origin(edge, cell),
        };
        origin.sources().intersection(FactSet::below(facts))
    }
}
