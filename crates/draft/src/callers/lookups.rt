// Looking calls up.
ghost use Rattle.std.specs.Prelude.{◌≡◌, List};
ghost use Rattle.std.specs.List.{slice_get};
ghost use Rattle.listing.specs.declared.control.Control.{Control};
ghost use Rattle.listing.specs.Callers.{call_from, call_after};
ghost use Rattle.draft.specs.Index.{Threads};

use crate::callers::Callers;
use crate::tables::told;
use listing::numbers::{Point, Proc};

impl Callers {
    // The first call of a procedure, or none.
    pub fn first(&self, p: Proc) -> Option<Point>
        ensures { (cs : List Control) → Threads self.now cs → result ≡ call_from cs p.0 0 }
    {
        told(&self.first, p.0)
    }

    // The next call of the procedure that is called at a point, or none; none too where the point has no call.
    pub fn next(&self, n: Point) -> Option<Point>
        ensures { (cs : List Control) → Threads self.now cs → result ≡ call_after cs n.0 (slice_get cs n.0) }
    {
        told(&self.next, n.0)
    }
}
