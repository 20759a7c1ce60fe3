// A trail over a listing, under one of the problems about cells.
ghost use Rattle.std.specs.Prelude.{◌≡◌, IfOk, string_bytes};
ghost use Rattle.review.specs.Told.{chosen, told_of};

use crate::trail::review;
use flow::cells::{CellCounts, CellProblem};
pub use flow::choice::Choice;
use flow::raw::Raw;
use flow::unset::Unset;
use listing::program::Program;
use paths::analysis::Analysis;
use std::alloc::{AllocError, Global};
use telling::Describe;
use text::tell::tell_listing;

// Tells a trail over a program, however it is kept, under one of the problems.
pub fn review_under<P: Program>(
    heap: Global,
    program: &P,
    choice: Choice,
    words: &[u32],
) -> Result<String, AllocError>
    ensures { IfOk result (λ s. string_bytes s ≡ chosen choice (P.meaning program.now) words.now) }
{
    let counts = CellCounts::of(program);
    // A problem is a type, so a match has to pick one. Shared with the tabulation, the match would take a trait with a method that is generic in the problem, and
    // a law of it for each rule: no plainer.
    match choice {
        Choice::Unset => {
            let problem = &CellProblem {
                counts,
                rule: Unset,
            };
            review(heap, &Analysis { program, problem }, words)
        }
        Choice::Raw => {
            let problem = &CellProblem { counts, rule: Raw };
            review(heap, &Analysis { program, problem }, words)
        }
    }
}

// A trail in words, under one of the problems.
#[derive(Clone, Copy)]
pub struct Trail<'a> {
    pub choice: Choice,
    pub words: &'a [u32],
}

impl Describe for Trail<'_> {
    ghost text = { λ t m. chosen t.choice m t.words.now };

    fn describe<P: Program>(&self, heap: Global, program: &P) -> Result<String, AllocError> {
        review_under(heap, program, self.choice, self.words)
    }
}

// Reads a listing, and tells a trail over it, or the refusal of the listing.
pub fn review_listing(
    heap: Global,
    bytes: &[u8],
    choice: Choice,
    words: &[u32],
) -> Result<String, AllocError>
    ensures { IfOk result (λ s. string_bytes s ≡ told_of bytes.now choice words.now) }
{
    tell_listing(heap, bytes, &Trail { choice, words })
}
