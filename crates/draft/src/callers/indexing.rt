// Making the index of calls.
ghost use Rattle.std.specs.Prelude.{◌≡◌, ◌<◌, slice_set};
ghost use Rattle.std.specs.Option.{option_map};
ghost use Rattle.draft.specs.Index.{Threads, bounded_call, bounded_calls, called};
ghost use Rattle.draft.specs.Told.{told};

use crate::callers::Callers;
use crate::interface::Draft;
use crate::procedures::{MOST_POINTS, MOST_PROCEDURES};
use listing::control::Control;
use listing::numbers::{Point, Proc};

// The procedure that is called, if one is, and it is one that a program may have.
fn callee_of(control: Option<Control>) -> Option<Proc>
    ensures { result ≡ called (option_map bounded_call control) }
{
    match control {
        Some(Control::Call { callee }) if usize::from(callee.0) < MOST_PROCEDURES => Some(callee),
        _ => None,
    }
}

impl Callers {
    // Puts a call before the later ones of its procedure.
    fn link(&mut self, n: Point, callee: Proc)
        requires callee { callee.0 < 60 }
        requires point { n.0 < 1000 }
        ensures heads { self.new.first ≡ slice_set self.old.first callee.0 (Some n) }
        ensures leads { self.new.next ≡ slice_set self.old.next n.0 (told self.old.first callee.0) }
    {
        self.next[usize::from(n.0)] = self.first[usize::from(callee.0)].replace(n);
    }
}

// The index of a draft, found from its last call to its first. A call of none of the procedures that a program may have is passed over.
pub fn index_calls<D: Draft>(draft: &D) -> Callers
    ensures { Threads result (bounded_calls (D.flow draft.now)) }
{
    let mut callers = Callers {
        first: [None; MOST_PROCEDURES],
        next: [None; MOST_POINTS],
    };
    for n in (0..draft.points()).rev() {
        let n = Point(n);
        if let Some(callee) = callee_of(draft.control(n)) {
            callers.link(n, callee);
        }
    }
    callers
}
