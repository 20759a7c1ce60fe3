// Settling a `call`.
ghost use Rattle.std.specs.Prelude.{◌≡◌, ◌<◌, true};
ghost use Rattle.flow.specs.Relation.{Rule};
ghost use Rattle.paths.specs.Table.{cell, number_of};
ghost use Rattle.paths.specs.Tabled.{is_found};
ghost use Rattle.table.specs.Settling.{CallStands, EntryStands, IsBack, AreBack, passes, comes_back, all_come_back, finds_entry, enters_at, all_enter};
ghost use Rattle.table.specs.State.{inner, Kept};

use crate::sites::{CallSite, Crossing, Lead};
use crate::state::Core;
use fact_set::FactSet;
use flow::edge::Edge;
use flow::interface::Problem;
use listing::numbers::{Fact, Point};

// Each asks one named fact of the table and the call. A struct that held the table's `&mut`, the problem and the call could carry it, but each
// method would then have to say that it keeps the reference, the problem and the call: no plainer.
impl Core {
    // Spreads a call to the point after it.
    fn pass<Q: Problem>(&mut self, problem: &Q, call: CallSite)
        requires { CallStands self.old call }
        ensures kept { Kept self.old self.new }
        ensures after { inner self.new ≡ passes (Q.relation problem.now) self.old.facts call (inner self.old) }
    {
        let spot = call.site.spot;
        let crossing = Crossing {
            edge: Edge::Past {
                at: spot.point,
                statement: call.site.statement,
            },
            from: spot.fact,
            by: Lead::Past {
                from: call.site.cell,
            },
        };
        let next = Point(spot.point.0 + 1);
        self.spread(problem, crossing, next, spot.origin);
    }

    // Returns to a call from a found cell of its callee's exit.
    fn come_back<Q: Problem>(&mut self, problem: &Q, call: CallSite, e: Fact, z: Fact)
        requires entered { EntryStands self.old call e.0 }
        requires left { z.0 < self.old.facts }
        requires found { is_found (number_of self.old.facts (cell call.callee.exit.0 e.0 z.0)) (inner self.old) ≡ true }
        ensures kept { Kept self.old self.new }
        ensures after { inner self.new ≡ comes_back (Q.relation problem.now) self.old.facts call e.0 z.0 (inner self.old) }
        ensures back { IsBack (Q.relation problem.now) call z.0 self.new }
    {
        let spot = call.site.spot;
        let exits = self.block(call.callee.exit, e);
        let crossing = Crossing {
            edge: Edge::Return {
                at: spot.point,
                statement: call.site.statement,
                result: call.callee.result,
            },
            from: z,
            by: Lead::Return {
                call: call.site.cell,
                exit: self.cell(exits, z),
            },
        };
        let next = Point(spot.point.0 + 1);
        self.spread(problem, crossing, next, spot.origin);
    }

    // Returns to a call from each found cell of its callee's exit under an origin. A fact from which all has come back to the call, under
    // whichever origin, gives nothing new: the set of those is handed on, and they are passed over.
    fn all_come_back<Q: Problem>(
        &mut self,
        problem: &Q,
        call: CallSite,
        e: Fact,
        back: FactSet,
    ) -> FactSet
        requires entered { EntryStands self.old call e.0 }
        requires back { AreBack (Q.relation problem.now) call back self.old }
        ensures kept { Kept self.old self.new }
        ensures after { inner self.new ≡ all_come_back (Q.relation problem.now) self.old.facts call e.0 (inner self.old) }
        ensures back { AreBack (Q.relation problem.now) call result self.new }
    {
        let exits = self.block(call.callee.exit, e);
        let mut back = back;
        let mut next = 0;
        while let Some(z) = self.found_in(exits).difference(back).from(next).first() {
            self.come_back(problem, call, e, z);
            back = back.union(FactSet::only(z));
            next = z.0 + 1;
        }
        back
    }

    // Finds the cell of the callee's entry with a fact.
    fn enter_entry(&mut self, call: CallSite, e: Fact)
        requires { EntryStands self.old call e.0 }
        ensures kept { Kept self.old self.new }
        ensures after { inner self.new ≡ finds_entry self.old.facts call e.0 (inner self.old) }
    {
        let entry = self.block(call.callee.entry, e);
        let by = Lead::Call {
            from: call.site.cell,
        };
        self.find(entry, e, by);
    }

    // Enters the callee with a fact, and at once returns from where the callee has got with it.
    fn enter_at<Q: Problem>(
        &mut self,
        problem: &Q,
        call: CallSite,
        e: Fact,
        back: FactSet,
    ) -> FactSet
        requires entered { EntryStands self.old call e.0 }
        requires back { AreBack (Q.relation problem.now) call back self.old }
        ensures kept { Kept self.old self.new }
        ensures after { inner self.new ≡ enters_at (Q.relation problem.now) self.old.facts call e.0 (inner self.old) }
        ensures back { AreBack (Q.relation problem.now) call result self.new }
    {
        self.enter_entry(call, e);
        self.all_come_back(problem, call, e, back)
    }

    // Facts from which all has come back to a call before its callee is entered: every fact, where all facts are found behind the call.
    fn back_already(&self, call: CallSite) -> FactSet
        requires { CallStands self.now call }
        ensures { (Q : Rule) → AreBack Q call result self.now }
    {
        let all = FactSet::below(self.facts);
        let next = self.block(Point(call.site.spot.point.0 + 1), call.site.spot.origin);
        if all.difference(self.found_in(next)).first().is_some() {
            FactSet::empty()
        } else {
            all
        }
    }

    // Enters the callee with each fact that follows.
    fn enter_callee<Q: Problem>(&mut self, problem: &Q, call: CallSite)
        requires { CallStands self.old call }
        ensures kept { Kept self.old self.new }
        ensures after { inner self.new ≡ all_enter (Q.relation problem.now) self.old.facts call (inner self.old) }
    {
        let spot = call.site.spot;
        let edge = Edge::Call {
            at: spot.point,
            statement: call.site.statement,
        };
        let entries = problem
            .targets(edge, spot.fact)
            .intersection(FactSet::below(self.facts));
        let mut back = self.back_already(call);
        let mut next = 0;
        while let Some(e) = entries.from(next).first() {
            back = self.enter_at(problem, call, e, back);
            next = e.0 + 1;
        }
    }

    // Settles a call: past it first, then into the callee.
    pub(super) fn settle_call<Q: Problem>(&mut self, problem: &Q, call: CallSite)
        requires { CallStands self.old call }
        ensures kept { Kept self.old self.new }
        ensures after { let F = self.old.facts in inner self.new ≡ all_enter (Q.relation problem.now) F call (passes (Q.relation problem.now) F call (inner self.old)) }
    {
        self.pass(problem, call);
        self.enter_callee(problem, call);
    }
}
