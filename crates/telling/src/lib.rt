// What is told of a program, however it is kept, or of why there is none.
#![tactic(auto)]

ghost use Rattle.std.specs.Prelude.{◌≡◌, ⊤, List, ℕ, IfOk, string_bytes};
ghost use Rattle.listing.specs.Meaning.{Meaning};
ghost use Rattle.telling.specs.Telling.{meant, told_by, HoldsBy};

use draft::question::Refusal;
use listing::program::Program;
use std::alloc::{AllocError, Global};

// A way to describe a program. It is a trait and not a closure: who calls a closure that is passed in has to ask that
// it may be called, and no public function asks anything of its callers. Nor can a closure be generic over the program,
// as `describe` is.
pub trait Describe {
    // the text that is told of a program
    ghost text: { Self → Meaning → List ℕ };

    // what else holds of it
    ghost law: { Self → Meaning → List ℕ → Type 0 } = { λ _ _ _. ⊤ };

    fn describe<P: Program>(&self, heap: Global, program: &P) -> Result<String, AllocError>
        ensures text { IfOk result (λ s. string_bytes s ≡ text self.now (P.meaning program.now)) }
        ensures law { IfOk result (λ s. law self.now (P.meaning program.now) (string_bytes s)) };
}

// Tells a description of the program that was read, or the refusal and a line end.
pub fn tell<P: Program, D: Describe>(
    heap: Global,
    read: Result<&P, Refusal>,
    description: &D,
) -> Result<String, AllocError>
    ensures text { IfOk result (λ s. string_bytes s ≡ told_by (D.text description.now) (meant P.meaning read.entry)) }
    ensures law { IfOk result (λ s. HoldsBy (D.law description.now) (meant P.meaning read.entry) (string_bytes s)) }
{
    match read {
        Ok(program) => description.describe(heap, program),
        Err(refusal) => format!(in heap; "{refusal}\n"),
    }
}
