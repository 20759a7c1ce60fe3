// Making the index.
ghost use Rattle.std.specs.Prelude.{◌≡◌, ◌<◌, length, Some, None, MatchResult};
ghost use Rattle.draft.specs.Index.{Describes};
ghost use Rattle.draft.specs.Rules.{crowded, has_ret};

use crate::interface::Draft;
use crate::procedures::{MOST_POINTS, MOST_PROCEDURES, Procedures};
use listing::control::Control;
use listing::numbers::{Point, Proc};

pub(crate) fn is_ret(control: Option<Control>) -> bool
    ensures { result ≡ has_ret control }
{
    control == Some(Control::Ret)
}

// The index of a draft, or the point of its 61st `ret`: an error enum would have this one case, and `examine` names the question.
pub(crate) fn index<D: Draft>(draft: &D) -> Result<Procedures, Point>
    ensures { MatchResult result
        (λ ps. Describes ps (D.flow draft.now) × (crowded (D.flow draft.now) ≡ None))
        (λ n. crowded (D.flow draft.now) ≡ Some n.0) }
{
    let mut homes = [None; MOST_POINTS];
    let mut exits = [None; MOST_PROCEDURES];
    let mut count = 0;
    // a loop and no chain: it writes two tables, counts, and stops at the 61st `ret`
    for n in 0..draft.points() {
        homes[usize::from(n)] = Some(Proc(count));
        if is_ret(draft.control(Point(n))) {
            if usize::from(count) == MOST_PROCEDURES {
                return Err(Point(n));
            }
            exits[usize::from(count)] = Some(Point(n));
            count += 1;
        }
    }
    Ok(Procedures {
        homes,
        exits,
        count,
    })
}
