// The outline of a listing.
ghost use Rattle.std.specs.Prelude.{◌≡◌, IfOk, Some, string_bytes};
ghost use Rattle.overview.specs.Outlined.{heading_text, described, outlined};

use crate::section::section_of;
use listing::counts::Counts;
use listing::numbers::Proc;
use listing::program::Program;
use std::alloc::{AllocError, Global};
use std::fmt::Write;
use telling::Describe;
use text::tell::tell_listing;

// The counts of a program, in words.
fn heading(heap: Global, counts: Counts) -> Result<String, AllocError>
    ensures { IfOk result (λ s. string_bytes s ≡ heading_text counts) }
{
    let Counts {
        globals,
        locals,
        points,
        procedures,
    } = counts;
    format!(in heap;
        "globals {globals} locals {locals} statements {points} procedures {procedures}"
    )
}

// The outline of a program: its counts, and a line for each procedure.
pub fn outline_of<P: Program>(heap: Global, program: &P) -> Result<String, AllocError>
    ensures { IfOk result (λ s. string_bytes s ≡ described (P.meaning program.now)) }
{
    let counts = program.counts();
    let mut out = heading(heap, counts)?;
    out.push('\n')?;
    for procedure in 0..counts.procedures {
        if let Some(section) = section_of(program, Proc(procedure)) {
            writeln!(out, "{section}")?;
        }
    }
    Ok(out)
}

// The outline, as a description.
#[derive(Clone, Copy)]
pub struct Description;

impl Describe for Description {
    ghost text = { λ _ m. described m };

    fn describe<P: Program>(&self, heap: Global, program: &P) -> Result<String, AllocError> {
        outline_of(heap, program)
    }
}

// Reads a listing, and tells its counts and procedures, or the refusal.
pub fn outline(heap: Global, bytes: &[u8]) -> Result<String, AllocError>
    ensures { IfOk result (λ s. string_bytes s ≡ outlined bytes.now) }
{
    tell_listing(heap, bytes, &Description)
}
