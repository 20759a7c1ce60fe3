// A listing tabulated in portions, under one of the problems about cells.
ghost use Rattle.std.specs.Prelude.{◌≡◌, IfOk, string_bytes};
ghost use Rattle.progress.specs.Listed.{chosen, told_of, ChosenCounted, ListingCounted};

use crate::portion::Pace;
use crate::tabulate::tabulate;
use flow::cells::{CellCounts, CellProblem};
use flow::choice::Choice;
use flow::raw::Raw;
use flow::unset::Unset;
use listing::program::Program;
use paths::analysis::Analysis;
use std::alloc::{AllocError, Global};
use telling::Describe;
use text::tell::tell_listing;

// A tabulation in portions, under one of the problems.
#[derive(Clone, Copy)]
pub struct Tabulation {
    pub choice: Choice,
    pub pace: Pace,
}

// Tabulates a program in portions, however it is kept, under one of the problems.
pub fn tabulate_under<P: Program>(
    heap: Global,
    program: &P,
    tabulation: Tabulation,
) -> Result<String, AllocError>
    ensures text { IfOk result (λ s. string_bytes s ≡ chosen tabulation.choice (P.meaning program.now) tabulation.pace.portion.size tabulation.pace.from) }
    ensures law { IfOk result (λ s. ChosenCounted tabulation.choice (P.meaning program.now) (string_bytes s)) }
{
    let Tabulation { choice, pace } = tabulation;
    let counts = CellCounts::of(program);
    // A problem is a type, so a match has to pick one. Shared with the review, the match would take a trait with a method that is generic in the problem, and a law of
    // it for each rule: no plainer.
    match choice {
        Choice::Unset => {
            let problem = &CellProblem {
                counts,
                rule: Unset,
            };
            tabulate(heap, &Analysis { program, problem }, pace)
        }
        Choice::Raw => {
            let problem = &CellProblem { counts, rule: Raw };
            tabulate(heap, &Analysis { program, problem }, pace)
        }
    }
}

impl Describe for Tabulation {
    ghost text = { λ t m. chosen t.choice m t.pace.portion.size t.pace.from };

    ghost law = { λ t m s. ChosenCounted t.choice m s };

    fn describe<P: Program>(&self, heap: Global, program: &P) -> Result<String, AllocError> {
        tabulate_under(heap, program, *self)
    }
}

// Reads a listing and tabulates it in portions: the tallies after each and the number of cells, or the refusal of the listing.
pub fn tabulate_listing(
    heap: Global,
    bytes: &[u8],
    tabulation: Tabulation,
) -> Result<String, AllocError>
    ensures text { IfOk result (λ s. string_bytes s ≡ told_of bytes.now tabulation.choice tabulation.pace.portion.size tabulation.pace.from) }
    ensures law { IfOk result (λ s. ListingCounted bytes.now tabulation.choice (string_bytes s)) }
{
    tell_listing(heap, bytes, &tabulation)
}
