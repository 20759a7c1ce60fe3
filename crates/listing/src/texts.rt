// Cells and facts in words.
ghost use Rattle.std.specs.Prelude.{Some};
ghost use Rattle.listing.specs.Texts.{cell_text, fact_text};

use crate::numbers::{Cell, Fact};
use std::fmt;

impl fmt::Display for Cell {
    ghost output = { λ c. Some (cell_text c) };

    fn fmt<W: fmt::Write>(&self, f: &mut fmt::Formatter<W>) -> fmt::Result {
        write!(f, "cell {}", self.0)
    }
}

impl fmt::Display for Fact {
    ghost output = { λ d. Some (fact_text d) };

    fn fmt<W: fmt::Write>(&self, f: &mut fmt::Formatter<W>) -> fmt::Result {
        write!(f, "fact {}", self.0)
    }
}
