// The rules that every statement keeps.
ghost use Rattle.std.specs.Prelude.{◌≡◌, ◌<◌, length};
ghost use Rattle.std.specs.Option.{option_map};
ghost use Rattle.listing.specs.Lawful.{stays, exists};
ghost use Rattle.listing.specs.Procedures.{rets};
ghost use Rattle.draft.specs.Index.{Describes};
ghost use Rattle.draft.specs.Rules.{Judges, failing};

use crate::interface::Draft;
use crate::procedures::Procedures;
use listing::control::Control;
use listing::numbers::Point;

// The first point whose statement does not keep a rule.
pub(crate) fn first_breach<D: Draft, F: Fn(Point, Control) -> bool>(
    draft: &D,
    keeps: F,
) -> Option<Point>
    requires { F.IsAlwaysCallable keeps }
    ensures { (rule : _) → Judges (F.post keeps) (D.flow draft.now) rule → option_map (λ n. n.0) result ≡ failing rule 0 (D.flow draft.now) }
{
    (0..draft.points())
        .find(|n| {
            let n = Point(*n);
            draft.control(n).is_some_and(|control| !keeps(n, control))
        })
        .map(Point)
}

// Each jump stays in its procedure.
pub(crate) fn jump_stays(procedures: &Procedures, n: Point, control: Control) -> bool
    ensures { (cs : _) → Describes procedures.now cs → n.0 < length cs → result ≡ stays cs n.0 control }
{
    match control {
        Control::Goto { target } | Control::Test { target } => procedures.together(n, target),
        _ => true,
    }
}

// Each called procedure exists.
pub(crate) fn callee_exists(procedures: &Procedures, n: Point, control: Control) -> bool
    ensures { (cs : _) → Describes procedures.now cs → result ≡ exists (rets cs) n.0 control }
{
    match control {
        Control::Call { callee } => callee.0 < procedures.count(),
        _ => true,
    }
}
