// A whole trail in words.
ghost use Rattle.std.specs.Prelude.{◌≡◌, length, take, IfOk, string_bytes};
ghost use Rattle.move_text.specs.Lines.{facts_text};
ghost use Rattle.paths.specs.Handing.{handed_by};
ghost use Rattle.trail_check.specs.Handing.{told};
ghost use Rattle.paths.specs.Checked.{check_no};
ghost use Rattle.review.specs.Reviewed.{lines_of, lawful_words, reviewed};

use flow::interface::Problem;
use listing::numbers::Point;
use listing::program::Program;
use move_text::{Item, MoveLine, open_after};
use moves::moves::Move;
use paths::analysis::Analysis;
use std::alloc::{AllocError, Global};
use trail_check::fault::Fault;
use trail_check::trail::check_trail;

// The lines of words, up to the first that is no move's.
fn move_lines<Q: Problem>(heap: Global, problem: &Q, words: &[u32]) -> Result<String, AllocError>
    ensures { IfOk result (λ s. string_bytes s ≡ lines_of (facts_text Q.Item.text (Q.stands problem.now)) 0 words.now) }
{
    let mut out = String::new(heap);
    let mut height = 0;
    for word in words {
        let Ok(arriving) = Move::try_from(*word) else {
            break;
        };
        height = open_after(height, arriving.kind);
        let item = Item {
            stands_for: problem.item(arriving.fact),
        };
        let line = MoveLine {
            arriving,
            item,
            height,
        };
        writeln!(out, "{line}")?;
    }
    Ok(out)
}

// What the check answers, with room for as many open calls as there are words.
fn checked<P: Program, Q: Problem>(
    heap: Global,
    on: &Analysis<P, Q>,
    words: &[u32],
) -> Result<Result<(), Fault>, AllocError>
    ensures { IfOk result (λ a. told a ≡ check_no (handed_by P.Program Q.Problem on.now) words.now (length words.now)) }
{
    let mut calls = vec![in heap; Point(0); words.len()]?;
    Ok(check_trail(on, words, calls.as_mut_slice()))
}

// The words before the first that is no lawful move.
fn lawful_part(words: &[u32], answer: Result<(), Fault>) -> &[u32]
    ensures { result.now ≡ take (lawful_words words.now (told answer)) words.now }
{
    match answer {
        Ok(()) => words,
        Err(fault) => words.get(..fault.place()).unwrap_or(words),
    }
}

// Tells each lawful move of a trail in words, and whether it is a call-matched path or where it stops being one.
pub fn review<P: Program, Q: Problem>(
    heap: Global,
    on: &Analysis<P, Q>,
    words: &[u32],
) -> Result<String, AllocError>
    ensures { IfOk result
        (λ s. string_bytes s ≡ reviewed (facts_text Q.Item.text (Q.stands on.now.problem.now)) words.now
        (check_no (handed_by P.Program Q.Problem on.now) words.now (length words.now))) }
{
    let answer = checked(heap, on, words)?;
    let mut out = move_lines(heap, on.problem, lawful_part(words, answer))?;
    match answer {
        Ok(()) => writeln!(out, "a call-matched path")?,
        Err(fault) => writeln!(out, "{fault}")?,
    }
    Ok(out)
}

#[cfg(test)]
mod tests {
    use super::*;
    use std::test::Fail;
    use tabled_problem::problem::TabledProblem;
    use text::text::Text;

    // A fact of a problem that is given by its table is told as a fact.
    #[test]
    fn of_facts(rt: HostRuntime) -> Result<(), Fail> {
        let rows = vec![in rt.alloc(); 0; 8]?;
        let program = &Text::shortest();
        let problem = &TabledProblem::new(rows, 2).unwrap();
        let on = &Analysis { program, problem };
        let told = review(rt.alloc(), on, &[0x2000_2000])?;
        assert_eq!(rt;
            told.as_str(),
            "start point 0 fact 1 fact 1 open 0\na call-matched path\n"
        );
        Ok(())
    }
}
