// Where the fact of a cell comes from.
ghost use Rattle.std.specs.Prelude.{◌≡◌, ℕ, ◌<◌, ◌&&◌, cond, nat_lt};
ghost use Rattle.fact_set.specs.Sets.{has};
ghost use Rattle.flow.specs.CellFacts.{spoken_of};
ghost use Rattle.flow.specs.Origins.{comes, speaks};

use fact_set::FactSet;
use listing::numbers::{Cell, Fact};

#[derive(Clone, Copy)]
pub enum Origin {
    // it follows from nothing
    Nothing,
    // from zero
    Zero,
    // from the fact of a cell
    One(Cell),
    // from the fact of either cell
    Two(Cell, Cell),
}

// A cell whose fact does not stay its own over an edge, and where it comes from.
#[derive(Clone, Copy)]
pub struct Transfer {
    pub to: Cell,
    pub from: Origin,
}

// The cell that a fact speaks of: fact c + 1 speaks of cell c, and zero of none.
pub(crate) fn cell_of(fact: Fact) -> Option<Cell>
    ensures { result ≡ spoken_of fact.0 }
{
    fact.0.checked_sub(1).map(Cell)
}

// The fact that speaks of a cell, if it is below 64.
#[tactic(auto, using(crate::proofs::Targets::next_below))]
fn fact_about(cell: Cell) -> FactSet
    ensures { (e : ℕ) → has result e ≡ (nat_lt e 64 && speaks e cell) }
{
    FactSet::only(Fact(cell.0.saturating_add(1)))
}

impl Origin {
    // The facts below 64 from which a fact that comes from here follows.
    #[tactic(auto, using(crate::proofs::Targets::either_below))]
    pub(crate) fn sources(self) -> FactSet
        ensures { (d : ℕ) → has result d ≡ (nat_lt d 64 && comes self d) }
    {
        match self {
            Origin::Nothing => FactSet::empty(),
            Origin::Zero => FactSet::only(Fact(0)),
            Origin::One(a) => fact_about(a),
            Origin::Two(a, b) => fact_about(a).union(fact_about(b)),
        }
    }
}

impl Transfer {
    // The kept facts, with the cell's put in if it follows from d, and else taken out.
    #[tactic(auto, using(crate::proofs::Targets::written))]
    pub(crate) fn onto(self, kept: FactSet, d: Fact) -> FactSet
        requires { d.0 < 64 }
        ensures { (e : ℕ) → has result e ≡ cond (nat_lt e 64 && speaks e self.to) (comes self.from d.0) (has kept e) }
    {
        let written = fact_about(self.to);
        let others = kept.difference(written);
        if self.from.sources().has(d) {
            others.union(written)
        } else {
            others
        }
    }
}
