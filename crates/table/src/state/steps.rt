// Settling a statement that is neither `call` nor `ret`.
ghost use Rattle.std.specs.Prelude.{◌≡◌, ◌<◌};
ghost use Rattle.table.specs.Settling.{Stands, Onward, step_to, steps};
ghost use Rattle.table.specs.State.{inner, Kept};

use crate::sites::{Crossing, Lead, Site};
use crate::state::Core;
use flow::edge::Edge;
use flow::interface::Problem;
use listing::control::Control;
use listing::numbers::Point;

impl Core {
    // Spreads a site to one of its successors.
    fn step_to<Q: Problem>(&mut self, problem: &Q, site: Site, to: Point)
        requires stands { Stands self.old site }
        requires point { to.0 < self.old.points }
        ensures kept { Kept self.old self.new }
        ensures after { inner self.new ≡ step_to (Q.relation problem.now) self.old.facts site to.0 (inner self.old) }
    {
        let crossing = Crossing {
            edge: Edge::Step {
                at: site.spot.point,
                statement: site.statement,
            },
            from: site.spot.fact,
            by: Lead::Step { from: site.cell },
        };
        self.spread(problem, crossing, to, site.spot.origin);
    }

    // Spreads a site to each of its successors, in their order.
    pub(super) fn settle_plain<Q: Problem>(&mut self, problem: &Q, site: Site)
        requires stands { Stands self.old site }
        requires onward { Onward self.old.points site.spot.point.0 site.statement }
        ensures kept { Kept self.old self.new }
        ensures after { inner self.new ≡ steps (Q.relation problem.now) self.old.facts site (inner self.old) }
    {
        let next = Point(site.spot.point.0 + 1);
        match site.statement.control() {
            Control::Next => self.step_to(problem, site, next),
            Control::Goto { target } => self.step_to(problem, site, target),
            Control::Test { target } => {
                self.step_to(problem, site, next);
                self.step_to(problem, site, target);
            }
            Control::Call { .. } | Control::Ret => {}
        }
    }
}
