// The questions about statements, in their order.
ghost use Rattle.std.specs.Prelude.{◌≡◌, Some, None, MatchResult};
ghost use Rattle.std.specs.Option.{option_map};
ghost use Rattle.draft.specs.Index.{Describes};
ghost use Rattle.draft.specs.Rules.{breach, unended, asked};

use crate::interface::Draft;
use crate::procedures::{Procedures, index, is_ret};
use crate::question::{Breach, Question};
use crate::rules::{callee_exists, first_breach, jump_stays};
use listing::numbers::Point;

// The last point, where its statement is no `ret`.
fn no_last_ret<D: Draft>(draft: &D) -> Option<Point>
    ensures { option_map (λ n. n.0) result ≡ unended (D.flow draft.now) }
{
    let last = Point(draft.points().saturating_sub(1));
    if is_ret(draft.control(last)) {
        None
    } else {
        Some(last)
    }
}

// A question's no at a point, if there is one.
fn answer(question: Question, no: Option<Point>) -> Result<(), Breach>
    ensures { result ≡ asked question no }
{
    match no {
        None => Ok(()),
        Some(point) => Err(Breach { question, point }),
    }
}

// Puts each question to every statement before the next: the index of procedures, or the first no.
pub fn examine<D: Draft>(draft: &D) -> Result<Procedures, Breach>
    ensures { MatchResult result
        (λ ps. Describes ps (D.flow draft.now) × (breach (D.flow draft.now) (D.owned draft.now) ≡ None))
        (λ b. breach (D.flow draft.now) (D.owned draft.now) ≡ Some b) }
{
    answer(Question::End, no_last_ret(draft))?;
    let procedures = index(draft).map_err(|point| Breach {
        question: Question::Procedures,
        point,
    })?;
    answer(
        Question::Cells,
        first_breach(draft, |n, _| draft.owns_cells(n)),
    )?;
    answer(
        Question::Jumps,
        first_breach(draft, |n, control| jump_stays(&procedures, n, control)),
    )?;
    answer(
        Question::Callees,
        first_breach(draft, |n, control| callee_exists(&procedures, n, control)),
    )?;
    Ok(procedures)
}
