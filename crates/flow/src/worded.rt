// What tells itself in words.
ghost use Rattle.std.specs.Prelude.{◌≡◌, ℕ, List, Some};
ghost use Rattle.std.proofs.Common.{rules};
ghost use Rattle.listing.specs.Texts.{cell_text, fact_text};

use listing::numbers::{Cell, Fact};
use std::fmt::Display;

// What a fact may stand for: its text is what `{}` writes.
pub trait Worded: Display {
    ghost text: { Self → List ℕ };

    ghost displayed: { (x : Self) → Self.output x ≡ Some (text x) };
}

impl Worded for Cell {
    ghost text = { cell_text };

    ghost displayed = { Prim.search rules };
}

impl Worded for Fact {
    ghost text = { fact_text };

    ghost displayed = { Prim.search rules };
}
