// A problem whose relation is given as bytes.
ghost use Rattle.std.specs.Prelude.{◌≡◌, ◌*◌};
ghost use Rattle.listing.specs.Meaning.{size};
ghost use Rattle.given_problem.specs.Given.{fits, Makes};

use crate::rows::rows_of;
use listing::program::Program;
use std::alloc::Global;
use tabled_problem::problem::TabledProblem;

// Why a problem is not made.
#[derive(Clone, Copy, PartialEq, Eq, Debug)]
pub enum Fault {
    // there may not be so many facts, or the bytes are not as many as the relation takes
    Range,
    // memory is wanting
    Memory,
}

// As many bytes as a relation of so many facts takes.
fn bytes_for<P: Program>(program: &P, facts: u8) -> usize
    ensures { result ≡ size (P.meaning program.now) * 4 * facts * 8 }
{
    usize::from(program.counts().points) * 4 * usize::from(facts) * 8
}

// Whether there may be so many facts, and the bytes are as many as the relation takes.
fn fits<P: Program>(program: &P, relation: &[u8], facts: u8) -> bool
    ensures { result ≡ fits (P.meaning program.now) relation.now facts }
{
    (1..=64).contains(&facts) && relation.len() == bytes_for(program, facts)
}

// The problem of so many facts that the bytes give. Whether they fit is asked before memory is.
pub fn problem_of<P: Program>(
    alloc: Global,
    program: &P,
    relation: &[u8],
    facts: u8,
) -> Result<TabledProblem, Fault>
    ensures { Makes (P.meaning program.now) relation.now facts result }
{
    if !fits(program, relation, facts) {
        return Err(Fault::Range);
    }
    let Ok(rows) = rows_of(alloc, relation) else {
        return Err(Fault::Memory);
    };
    // there may be so many facts
    let Ok(problem) = TabledProblem::new(rows, facts) else {
        unreachable()
    };
    Ok(problem)
}
