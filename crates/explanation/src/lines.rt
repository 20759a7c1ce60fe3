// The lines of a trail.
ghost use Rattle.std.specs.Prelude.{◌≡◌, IfOk, string_bytes};
ghost use Rattle.move_text.specs.Lines.{facts_text};
ghost use Rattle.explanation.specs.Lines.{path_text, moves_of};

use crate::line::ExplainedLine;
use flow::interface::Problem;
use listing::program::Program;
use move_text::open_after;
use moves::moves::Move;
use paths::analysis::Analysis;
use std::alloc::{AllocError, Global};

// The lines of the moves that words tell.
pub(crate) fn trail_lines<P: Program, Q: Problem>(
    heap: Global,
    on: &Analysis<P, Q>,
    words: &[u32],
) -> Result<String, AllocError>
    ensures { IfOk result (λ s. string_bytes s ≡ path_text (P.meaning on.now.program.now) (facts_text Q.Item.text (Q.stands on.now.problem.now)) (moves_of words.now)) }
{
    let mut out = String::new(heap);
    let mut height = 0;
    for word in words {
        let Ok(arriving) = Move::try_from(*word) else {
            continue;
        };
        height = open_after(height, arriving.kind);
        let line = ExplainedLine::of(on, arriving, height);
        writeln!(out, "{line}")?;
    }
    Ok(out)
}
