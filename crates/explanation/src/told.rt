// The trail of a pair over a listing, under one of the problems about cells.
ghost use Rattle.std.specs.Prelude.{◌≡◌, IfOk, string_bytes};
ghost use Rattle.explanation.specs.Beside.{OwnLines};
ghost use Rattle.explanation.specs.Told.{chosen, told_of, ChosenTells, ListingTells};

pub use crate::pair::Pair;
use crate::pair::explain;
use flow::cells::{CellCounts, CellProblem};
use flow::choice::Choice;
use flow::raw::Raw;
use flow::unset::Unset;
use listing::program::Program;
use paths::analysis::Analysis;
use std::alloc::{AllocError, Global};
use telling::Describe;
use text::tell::tell_listing;

// A pair under one of the problems.
#[derive(Clone, Copy)]
pub struct Asked {
    pub choice: Choice,
    pub pair: Pair,
}

// Tells the trail of a pair over a program, however it is kept, under one of the problems.
pub fn explain_under<P: Program>(
    heap: Global,
    program: &P,
    asked: Asked,
) -> Result<String, AllocError>
    ensures text { IfOk result (λ s. string_bytes s ≡ chosen asked.choice (P.meaning program.now) asked.pair.point.0 asked.pair.fact.0) }
    ensures law { IfOk result (λ s. ChosenTells asked.choice (P.meaning program.now) asked.pair.point.0 asked.pair.fact.0 (string_bytes s)) }
{
    let Asked { choice, pair } = asked;
    let counts = CellCounts::of(program);
    // A problem is a type, so a match has to pick one. Shared with the other tellings, the match would take a trait with a method that is generic in the problem, and a
    // law of it for each rule: no plainer.
    match choice {
        Choice::Unset => {
            let problem = &CellProblem {
                counts,
                rule: Unset,
            };
            explain(heap, &Analysis { program, problem }, pair)
        }
        Choice::Raw => {
            let problem = &CellProblem { counts, rule: Raw };
            explain(heap, &Analysis { program, problem }, pair)
        }
    }
}

impl Describe for Asked {
    ghost text = { λ a m. chosen a.choice m a.pair.point.0 a.pair.fact.0 };

    ghost law = { λ a m s. ChosenTells a.choice m a.pair.point.0 a.pair.fact.0 s };

    fn describe<P: Program>(&self, heap: Global, program: &P) -> Result<String, AllocError> {
        explain_under(heap, program, *self)
    }
}

// Reads a listing, tabulates a problem over it from the default starts, and tells the trail of a pair, with the listing's own lines beside its
// moves; or the refusal of the listing.
#[tactic(auto, using(crate::proofs::Beside::own_lines))]
pub fn explain_listing(heap: Global, bytes: &[u8], asked: Asked) -> Result<String, AllocError>
    ensures text { IfOk result (λ s. string_bytes s ≡ told_of bytes.now asked.choice asked.pair.point.0 asked.pair.fact.0) }
    ensures law { IfOk result (λ s. ListingTells bytes.now asked.choice asked.pair.point.0 asked.pair.fact.0 (string_bytes s)) }
    ensures beside { OwnLines bytes.now }
{
    tell_listing(heap, bytes, &asked)
}
