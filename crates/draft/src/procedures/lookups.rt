// Looking procedures up. Each clause asks which statements the index describes: it does not hold the statements that it was
// made of, so no field of it can name them.
ghost use Rattle.std.specs.Prelude.{◌≡◌, ◌<◌, List, length};
ghost use Rattle.listing.specs.declared.control.Control.{Control};
ghost use Rattle.listing.specs.Lawful.{together};
ghost use Rattle.listing.specs.Meaning.{below, point, proc};
ghost use Rattle.listing.specs.Procedures.{rets, procedure, entry, exit};
ghost use Rattle.draft.specs.Index.{Describes};

use crate::procedures::Procedures;
use crate::tables::told;
use listing::numbers::{Point, Proc};

impl Procedures {
    // P
    pub fn count(&self) -> u16
        ensures { (cs : List Control) → Describes self.now cs → result ≡ rets cs }
    {
        self.count
    }

    // The procedure of a point, or none from N on.
    pub fn procedure_of(&self, n: Point) -> Option<Proc>
        ensures { (cs : List Control) → Describes self.now cs → result ≡ below n.0 (length cs) (proc (procedure cs n.0)) }
    {
        told(&self.homes, n.0)
    }

    // The first point of a procedure, or none from P on.
    pub fn entry(&self, p: Proc) -> Option<Point>
        ensures { (cs : List Control) → Describes self.now cs → result ≡ below p.0 (rets cs) (point (entry cs p.0)) }
    {
        if p.0 >= self.count {
            return None;
        }
        let Some(before) = p.0.checked_sub(1) else {
            return Some(Point(0));
        };
        let end = told(&self.exits, before)?;
        Some(Point(end.0 + 1))
    }

    // The `ret` of a procedure, or none from P on.
    pub fn exit(&self, p: Proc) -> Option<Point>
        ensures { (cs : List Control) → Describes self.now cs → result ≡ below p.0 (rets cs) (point (exit cs p.0)) }
    {
        told(&self.exits, p.0)
    }

    // Whether k is a point of the procedure of n, a point of the program.
    #[tactic(auto, using(crate::proofs::Homes::together_equal))]
    pub(crate) fn together(&self, n: Point, k: Point) -> bool
        ensures { (cs : List Control) → Describes self.now cs → n.0 < length cs → result ≡ together cs n.0 k.0 }
    {
        self.procedure_of(k) == self.procedure_of(n)
    }
}
