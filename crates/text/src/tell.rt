// What is told of a listing.
ghost use Rattle.std.specs.Prelude.{◌≡◌, IfOk, string_bytes};
ghost use Rattle.telling.specs.Telling.{told_by, HoldsBy};
ghost use Rattle.text.specs.Reading.{reading};

use crate::text::Text;
use std::alloc::{AllocError, Global};
use telling::{Describe, tell};

// Reads a listing, and tells a description of its program, or the refusal and a line end.
pub fn tell_listing<D: Describe>(
    heap: Global,
    bytes: &[u8],
    description: &D,
) -> Result<String, AllocError>
    ensures text { IfOk result (λ s. string_bytes s ≡ told_by (D.text description.now) (reading bytes.now)) }
    ensures law { IfOk result (λ s. HoldsBy (D.law description.now) (reading bytes.now) (string_bytes s)) }
{
    let read = Text::of(bytes);
    tell(heap, read.as_ref().map_err(|refusal| *refusal), description)
}
