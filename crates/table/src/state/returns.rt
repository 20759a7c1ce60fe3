// Settling a `ret`.
ghost use Rattle.std.specs.Prelude.{◌≡◌, ℕ, ◌<◌, true};
ghost use Rattle.fact_set.specs.Sets.{has};
ghost use Rattle.flow.specs.declared.edge.Edge.TheVariants as edge;
ghost use Rattle.paths.specs.Handing.{handed_by};
ghost use Rattle.paths.specs.Tabled.{caller_each};
ghost use Rattle.table.specs.Seen.{Recalls};
ghost use Rattle.table.specs.Settling.{Stands, ReturnStands, HasAll, returns_block, returns, answers};
ghost use Rattle.table.specs.State.{inner, cell_of, Kept};

use crate::seen::Seen;
use crate::sites::{Caller, Lead, ReturnSite, Site};
use crate::state::Core;
use fact_set::FactSet;
use flow::edge::Edge;
use flow::interface::Problem;
use listing::numbers::{Cell, Fact, Point};
use listing::program::Program;
use paths::analysis::Analysis;

// The facts at a call from which the procedure may have been entered with the exit's origin.
fn entered_from<Q: Problem>(problem: &Q, site: ReturnSite) -> FactSet
    ensures { (f : ℕ) → has result f ≡ Q.relation problem.now (edge.Call site.caller.at site.caller.statement) f site.exit.spot.origin.0 }
{
    let Caller { at, statement, .. } = site.caller;
    problem.sources(Edge::Call { at, statement }, site.exit.spot.origin)
}

// The facts behind a call that follow from the exit's.
fn returned<Q: Problem>(problem: &Q, site: ReturnSite) -> FactSet
    ensures { (e : ℕ) → has result e ≡ Q.relation problem.now (edge.Return site.caller.at site.caller.statement site.caller.result) site.exit.spot.fact.0 e }
{
    let Caller {
        at,
        statement,
        result,
    } = site.caller;
    let back = Edge::Return {
        at,
        statement,
        result,
    };
    problem.targets(back, site.exit.spot.fact)
}

// Each asks named facts of the table, the exit and the call. A struct that held the table's `&mut`, the problem and the exit could carry them,
// but each method would then have to say that it keeps the reference, the problem and the exit: no plainer.
impl Core {
    // Returns to the cells of a call under one origin whose facts are in the set `from`, with the facts of the set `with`. The first of them
    // that is found leaves nothing new for the others.
    fn return_block(&mut self, site: ReturnSite, from: FactSet, with: FactSet, b: Fact)
        requires stands { ReturnStands self.old site }
        requires origin { b.0 < self.old.facts }
        ensures kept { Kept self.old self.new }
        ensures after { inner self.new ≡ returns_block self.old.facts from with site b.0 (inner self.old) }
    {
        let calls = self.block(site.caller.at, b);
        let Some(f) = self.found_in(calls).intersection(from).first() else {
            return;
        };
        let by = Lead::Return {
            call: self.cell(calls, f),
            exit: site.exit.cell,
        };
        let next = Point(site.caller.at.0 + 1);
        self.find_each(self.block(next, b), with, by);
    }

    // The same under every origin.
    fn return_blocks(&mut self, site: ReturnSite, from: FactSet, with: FactSet)
        requires { ReturnStands self.old site }
        ensures kept { Kept self.old self.new }
        ensures after { inner self.new ≡ returns self.old.facts from with site (inner self.old) }
    {
        for b in 0..self.facts {
            self.return_block(site, from, with, Fact(b));
        }
    }

    // Whether the cells of a point with the facts of a set are all found, under every origin.
    fn has_all(&self, point: Point, facts: FactSet) -> bool
        requires { point.0 < self.now.points }
        ensures { result ≡ true → HasAll facts point.0 self.now }
    {
        let facts = facts.intersection(FactSet::below(self.facts));
        for b in 0..self.facts {
            let found = self.found_in(self.block(point, Fact(b)));
            if facts.difference(found).first().is_some() {
                return false;
            }
        }
        true
    }

    // Returns to the cells of a call from which the procedure may have been entered, with what follows from the exit's fact. A call behind
    // which all of that is found is passed over.
    fn answer_call<Q: Problem>(&mut self, problem: &Q, site: ReturnSite)
        requires { ReturnStands self.old site }
        ensures kept { Kept self.old self.new }
        ensures after { inner self.new ≡ answers (Q.relation problem.now) self.old.facts site (inner self.old) }
    {
        let with = returned(problem, site);
        if self.has_all(Point(site.caller.at.0 + 1), with) {
            return;
        }
        self.return_blocks(site, entered_from(problem, site), with);
    }

    // Settles a `ret`: returns to each call of its procedure, in order.
    pub(super) fn settle_ret<P: Program, Q: Problem>(
        &mut self,
        on: &Analysis<P, Q>,
        seen: &mut Seen,
        exit: Site,
        returned: Cell,
    )
        requires recalls { Recalls (P.meaning on.now.program.now) seen.old }
        requires points { self.old.points ≡ (handed_by P.Program Q.Problem on.now).points }
        requires stands { Stands self.old exit }
        ensures kept { Kept self.old self.new }
        ensures after { let h = handed_by P.Program Q.Problem on.now in inner self.new ≡ caller_each h.graph h.rule h.points self.old.facts returned (cell_of exit.spot) (inner self.old) }
        ensures recalls { Recalls (P.meaning on.now.program.now) seen.new }
    {
        let Some(home) = on.program.procedure_of(exit.spot.point) else {
            return;
        };
        // a `for` over `iter::successors` would put the same walk into a closure: no plainer
        let mut next = on.program.first_caller(home);
        while let Some(at) = next {
            let Some(statement) = seen.statement(on.program, at) else {
                return;
            };
            let caller = Caller {
                at,
                statement,
                result: returned,
            };
            self.answer_call(on.problem, ReturnSite { exit, caller });
            next = on.program.next_caller(at);
        }
    }
}
