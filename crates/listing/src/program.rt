// A program, however it is kept.
ghost use Rattle.std.specs.Prelude.{◌≡◌, true};
ghost use Rattle.listing.specs.Meaning.{Meaning, flow, totals, statement_at, procedure_at, entry_of, exit_of};
ghost use Rattle.listing.specs.Callers.{calls_at, call_from, first_caller_of, next_caller_of};
ghost use Rattle.listing.specs.Lawful.{is_lawful};

use crate::counts::Counts;
use crate::numbers::{Cell, Point, Proc};
use crate::statement::Statement;

// Whether a statement is a call of a procedure.
fn calls(statement: Option<Statement<Cell>>, p: Proc) -> bool
    ensures { result ≡ calls_at statement p.0 }
{
    matches!(statement, Some(Statement::Call { callee, .. }) if callee == p)
}

// A lawful program, by its meaning. Every method answers from the meaning alone, and changes nothing.
pub trait Program {
    ghost meaning: { Self → Meaning };

    // what each make must show
    ghost lawful: { (p : Self) → is_lawful (meaning p) ≡ true };

    fn counts(&self) -> Counts
        ensures { result ≡ totals (meaning self.now) };

    // The statement at a point, or none from N on.
    fn statement(&self, n: Point) -> Option<Statement<Cell>>
        ensures { result ≡ statement_at (meaning self.now) n };

    // The procedure of a point, or none from N on.
    fn procedure_of(&self, n: Point) -> Option<Proc>
        ensures { result ≡ procedure_at (meaning self.now) n };

    // The first point of a procedure, or none from P on.
    fn entry(&self, p: Proc) -> Option<Point>
        ensures { result ≡ entry_of (meaning self.now) p };

    // The `ret` of a procedure, or none from P on.
    fn exit(&self, p: Proc) -> Option<Point>
        ensures { result ≡ exit_of (meaning self.now) p };

    // The first call of a procedure from a point on, or none: each point is looked at in turn.
    #[tactic(auto, using(crate::proofs::Calls::call_turn, crate::proofs::Calls::no_call))]
    fn call_from(&self, p: Proc, least: Point) -> Option<Point>
        ensures { result ≡ call_from (flow (meaning self.now)) p.0 least.0 }
    {
        for n in least.0..self.counts().points {
            let at = Point(n);
            if calls(self.statement(at), p) {
                return Some(at);
            }
        }
        None
    }

    // The first call of a procedure, or none. A make that keeps an index of calls answers from that.
    fn first_caller(&self, p: Proc) -> Option<Point>
        ensures { result ≡ first_caller_of (meaning self.now) p }
    {
        self.call_from(p, Point(0))
    }

    // The next call of the procedure that is called at a point, or none; none too where the point has no call.
    fn next_caller(&self, n: Point) -> Option<Point>
        ensures { result ≡ next_caller_of (meaning self.now) n }
    {
        match self.statement(n) {
            Some(Statement::Call { callee, .. }) => self.call_from(callee, Point(n.0 + 1)),
            _ => None,
        }
    }
}
