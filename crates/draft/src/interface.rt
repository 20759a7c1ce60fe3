// What a make hands over to be examined.
ghost use Rattle.std.specs.Prelude.{◌≡◌, ℕ, Bool, true, List, length, nat_le};
ghost use Rattle.std.specs.List.{slice_get};
ghost use Rattle.listing.specs.declared.control.Control.{Control};

use listing::control::Control;
use listing::numbers::Point;

// A delivered program of at most 1,000 statements, each of which has its form.
pub trait Draft {
    // what each statement does to control
    ghost flow: { Self → List Control };

    // whether the cells of the statement at a point are the program's
    ghost owned: { Self → ℕ → Bool };

    ghost few: { (d : Self) → nat_le (length (flow d)) 1000 ≡ true };

    fn points(&self) -> u16
        ensures { result ≡ length (flow self.now) };

    fn control(&self, n: Point) -> Option<Control>
        ensures { result ≡ slice_get (flow self.now) n.0 };

    fn owns_cells(&self, n: Point) -> bool
        ensures { result ≡ owned self.now n.0 };
}
