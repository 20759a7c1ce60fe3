// Spreading a fact over an edge.
ghost use Rattle.std.specs.Prelude.{◌≡◌, ◌*◌, ◌<◌};
ghost use Rattle.table.specs.Settling.{finds, spread, AllFound, AllSpread};
ghost use Rattle.table.specs.State.{inner, Led, Kept};

use crate::sites::{Crossing, Lead};
use crate::state::Core;
use fact_set::FactSet;
use flow::interface::Problem;
use listing::numbers::{Fact, Point};

impl Core {
    // Finds the cells of a block with the facts of a set, in ascending order.
    pub(super) fn find_each(&mut self, block: u32, facts: FactSet, by: Lead)
        requires block { block < self.old.points * self.old.facts }
        requires led { Led self.old by }
        ensures kept { Kept self.old self.new }
        ensures after { inner self.new ≡ finds self.old.facts facts by block (inner self.old) }
        ensures all { AllFound facts block self.new }
    {
        let facts = facts.intersection(FactSet::below(self.facts));
        let mut next = 0;
        while let Some(fact) = facts.difference(self.found_in(block)).from(next).first() {
            self.find(block, fact, by);
            next = fact.0 + 1;
        }
    }

    // Finds the cells of a point, under an origin, whose facts follow from the one that crosses an edge.
    pub(super) fn spread<Q: Problem>(
        &mut self,
        problem: &Q,
        crossing: Crossing,
        point: Point,
        origin: Fact,
    )
        requires point { point.0 < self.old.points }
        requires origin { origin.0 < self.old.facts }
        requires led { Led self.old crossing.by }
        ensures kept { Kept self.old self.new }
        ensures after { inner self.new ≡ spread (Q.relation problem.now) self.old.facts crossing.edge crossing.from.0 crossing.by point.0 origin.0 (inner self.old) }
        ensures all { AllSpread (Q.relation problem.now) crossing.edge crossing.from.0 point.0 origin.0 self.new }
    {
        let block = self.block(point, origin);
        let facts = problem.targets(crossing.edge, crossing.from);
        self.find_each(block, facts, crossing.by);
    }
}
