// The rows of bits by which a relation is given.
ghost use Rattle.std.specs.Prelude.{◌≡◌, ℕ};
ghost use Rattle.fact_set.specs.Sets.{has};
ghost use Rattle.tabled_problem.specs.Rows.{point_left, place_of_kind, row_number, bit_in};

use fact_set::FactSet;
use flow::edge::Edge;
use listing::numbers::{Fact, Point};

// The point that an edge leaves; for a return, the call.
fn point_left(edge: Edge) -> Point
    ensures { result ≡ point_left edge }
{
    match edge {
        Edge::Step { at, .. }
        | Edge::Past { at, .. }
        | Edge::Call { at, .. }
        | Edge::Return { at, .. } => at,
    }
}

// The place of an edge's kind among the kinds of a point.
fn place_of_kind(edge: Edge) -> usize
    ensures { result ≡ place_of_kind edge }
{
    match edge {
        Edge::Step { .. } => 0,
        Edge::Past { .. } => 1,
        Edge::Call { .. } => 2,
        Edge::Return { .. } => 3,
    }
}

// The number of the row that tells what follows from a fact over an edge, where a problem has so many facts.
pub(crate) fn row_number(facts: u8, edge: Edge, d: Fact) -> usize
    ensures { result ≡ row_number facts edge d.0 }
{
    let kind = usize::from(point_left(edge).0) * 4 + place_of_kind(edge);
    kind * usize::from(facts) + usize::from(d.0)
}

// The facts in a row; none beyond the rows.
pub(crate) fn facts_in(rows: &[u64], row: usize) -> FactSet
    ensures { (e : ℕ) → has result e ≡ bit_in rows.now row e }
{
    FactSet(rows.get(row).copied().unwrap_or(0))
}
