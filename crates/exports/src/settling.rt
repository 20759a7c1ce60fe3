// How many cells are settled in the end.
ghost use Rattle.std.specs.Prelude.{◌≡◌, IfOk};
ghost use Rattle.paths.specs.Handing.{handed_by};
ghost use Rattle.exports.specs.Counted.{cells_settled, Gives, CountOfAll, CountOfUnset};

use crate::answer::Outcome;
use findings::fill::settle_all;
use flow::cells::{CellCounts, CellProblem};
use flow::interface::Problem;
use flow::unset::Unset;
use given_problem::given::{Fault, problem_of};
use listing::program::Program;
use listing::refused::Refused;
use paths::analysis::Analysis;
use records::record::Record;
use std::alloc::{AllocError, Global};
use table::state::records_for;
use text::text::Text;

// How many cells are settled from the default starts.
fn settled<P: Program, Q: Problem>(alloc: Global, on: &Analysis<P, Q>) -> Result<u32, AllocError>
    ensures { IfOk result (λ n. n ≡ cells_settled (handed_by P.Program Q.Problem on.now) (Q.starts on.now.problem.now)) }
{
    let memory = Record::blanks(alloc, records_for(on) as usize)?;
    // the memory has a record for each cell, so it is not refused
    let Ok(table) = settle_all(memory, on) else {
        unreachable()
    };
    Ok(table.tallies().settled)
}

// The same as what comes of a call.
fn count<P: Program, Q: Problem>(alloc: Global, on: &Analysis<P, Q>) -> Outcome
    ensures { Gives (cells_settled (handed_by P.Program Q.Problem on.now) (Q.starts on.now.problem.now)) result }
{
    match settled(alloc, on) {
        Ok(cells) => Outcome::Given(cells as usize),
        Err(_) => Outcome::OutOfMemory,
    }
}

// Over a relation that is given, from procedure 0 with every fact. That the listing is read and that the relation fits is asked before memory is.
pub(crate) fn count_of_all(alloc: Global, listing: &[u8], relation: &[u8], facts: u8) -> Outcome
    ensures { CountOfAll listing.now relation.now facts result }
{
    let mut program = Text::shortest();
    if let Err(refusal) = program.read(listing) {
        return Outcome::Refused(refusal.refused());
    }
    match problem_of(alloc, &program, relation, facts) {
        Ok(problem) => count(
            alloc,
            &Analysis {
                program: &program,
                problem: &problem,
            },
        ),
        Err(Fault::Range) => Outcome::Refused(Refused {
            number: 10,
            place: 0,
        }),
        Err(Fault::Memory) => Outcome::OutOfMemory,
    }
}

// Of the problem unset, from its default starts.
pub(crate) fn count_of_unset(alloc: Global, listing: &[u8]) -> Outcome
    ensures { CountOfUnset listing.now result }
{
    let mut program = Text::shortest();
    if let Err(refusal) = program.read(listing) {
        return Outcome::Refused(refusal.refused());
    }
    let problem = CellProblem {
        counts: CellCounts::of(&program),
        rule: Unset,
    };
    count(
        alloc,
        &Analysis {
            program: &program,
            problem: &problem,
        },
    )
}
