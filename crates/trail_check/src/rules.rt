// Where a lawful move leads; none where it is not lawful there.
ghost use Rattle.std.specs.Prelude.{◌≡◌, ◌+◌, ◌==◌};
ghost use Rattle.std.specs.Bool.{then_some};
ghost use Rattle.listing.specs.Meaning.{statement_at};
ghost use Rattle.paths.specs.Check.{among, start_ok, step_ok, past_ok, call_ok, return_ok};
ghost use Rattle.paths.specs.Handing.{handed_by};
ghost use Rattle.paths.specs.Machine.{shape};
ghost use Rattle.paths.specs.Supergraph.{successors};
ghost use Rattle.trail_check.specs.Rules.{called, returned};

use flow::edge::Edge;
use flow::interface::Problem;
use listing::control::Control;
use listing::numbers::{Cell, Fact, Point, Proc};
use listing::program::Program;
use listing::statement::Statement;
use paths::analysis::Analysis;

// A point with a fact.
#[derive(Clone, Copy)]
pub(crate) struct Place {
    pub point: Point,
    pub fact: Fact,
}

// Whether m is the point after n.
fn is_after(m: Point, n: Point) -> bool
    ensures { result ≡ (m.0 == n.0 + 1) }
{
    n.0.checked_add(1) == Some(m.0)
}

// Whether m is a successor of a statement at point n.
fn succeeds(m: Point, n: Point, statement: Statement<Cell>) -> bool
    ensures { result ≡ among m.0 (successors n.0 statement) }
{
    match statement.control() {
        Control::Next => is_after(m, n),
        Control::Goto { target } => m == target,
        Control::Test { target } => is_after(m, n) || m == target,
        Control::Call { .. } | Control::Ret => false,
    }
}

// The call at a point, and its callee.
fn call_at<P: Program>(program: &P, n: Point) -> Option<(Statement<Cell>, Proc)>
    ensures { result ≡ called (statement_at (P.meaning program.now) n) }
{
    let statement = program.statement(n)?;
    match statement {
        Statement::Call { callee, .. } => Some((statement, callee)),
        _ => None,
    }
}

// The cell that the `ret` at a point returns.
fn returned_at<P: Program>(program: &P, n: Point) -> Option<Cell>
    ensures { result ≡ returned (statement_at (P.meaning program.now) n) }
{
    match program.statement(n)? {
        Statement::Ret { from } => Some(from),
        _ => None,
    }
}

// A step from a place to another.
pub(crate) fn steps<P: Program, Q: Problem>(
    on: &Analysis<P, Q>,
    from: Place,
    to: Place,
) -> Option<Place>
    ensures { let h = handed_by P.Program Q.Problem on.now in
        result ≡ then_some (step_ok h.graph h.rule h.points h.facts (shape (h.graph.at from.point.0)) from.point.0 from.fact.0 to.point.0 to.fact.0) to }
{
    let at = from.point;
    let statement = on.program.statement(at)?;
    let edge = Edge::Step { at, statement };
    let lawful = succeeds(to.point, at, statement) && on.problem.follows(edge, from.fact, to.fact);
    lawful.then_some(to)
}

// From a call at a place to the point after it.
pub(crate) fn passes<P: Program, Q: Problem>(
    on: &Analysis<P, Q>,
    from: Place,
    to: Place,
) -> Option<Place>
    ensures { let h = handed_by P.Program Q.Problem on.now in
        result ≡ then_some (past_ok h.graph h.rule h.points h.facts (shape (h.graph.at from.point.0)) from.point.0 from.fact.0 to.point.0 to.fact.0) to }
{
    let at = from.point;
    let (statement, _) = call_at(on.program, at)?;
    let edge = Edge::Past { at, statement };
    let lawful = is_after(to.point, at) && on.problem.follows(edge, from.fact, to.fact);
    lawful.then_some(to)
}

// From a call at a place into the callee.
pub(crate) fn enters<P: Program, Q: Problem>(
    on: &Analysis<P, Q>,
    from: Place,
    to: Place,
) -> Option<Place>
    ensures { let h = handed_by P.Program Q.Problem on.now in
        result ≡ then_some (call_ok h.graph h.rule h.points h.facts (shape (h.graph.at from.point.0)) from.point.0 from.fact.0 to.point.0 to.fact.0) to }
{
    let at = from.point;
    let (statement, callee) = call_at(on.program, at)?;
    let entry = on.program.entry(callee)?;
    let edge = Edge::Call { at, statement };
    let lawful = to.point == entry && on.problem.follows(edge, from.fact, to.fact);
    lawful.then_some(to)
}

// From a `ret` at a place back to the point after the call that is open.
pub(crate) fn returns<P: Program, Q: Problem>(
    on: &Analysis<P, Q>,
    call: Point,
    from: Place,
    to: Place,
) -> Option<Place>
    ensures { let h = handed_by P.Program Q.Problem on.now in
        result ≡ then_some (return_ok h.graph h.rule h.points h.facts (shape (h.graph.at call.0)) (shape (h.graph.at from.point.0))
        call.0 from.point.0 from.fact.0 to.point.0 to.fact.0) to }
{
    let (statement, callee) = call_at(on.program, call)?;
    let result = returned_at(on.program, from.point)?;
    let exit = on.program.exit(callee)?;
    let edge = Edge::Return {
        at: call,
        statement,
        result,
    };
    let lawful = from.point == exit
        && is_after(to.point, call)
        && on.problem.follows(edge, from.fact, to.fact);
    lawful.then_some(to)
}

// A start: the entry of a procedure, with a fact.
pub(crate) fn begins<P: Program, Q: Problem>(on: &Analysis<P, Q>, to: Place) -> Option<Place>
    ensures { let h = handed_by P.Program Q.Problem on.now in
        result ≡ then_some (start_ok h.graph h.points h.facts to.point.0 to.fact.0) to }
{
    let procedure = on.program.procedure_of(to.point)?;
    let entry = on.program.entry(procedure)?;
    let lawful = to.fact.0 < on.problem.facts() && to.point == entry;
    lawful.then_some(to)
}
