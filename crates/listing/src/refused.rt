// How a refusal is told.
ghost use Rattle.std.specs.Prelude.{Some};
ghost use Rattle.listing.specs.Refusals.{refused_text};

use std::fmt;

// The number of the question that is answered no, and the place.
#[derive(Clone, Copy, PartialEq, Eq, Debug)]
pub struct Refused {
    pub number: u8,
    pub place: usize,
}

impl fmt::Display for Refused {
    ghost output = { λ r. Some (refused_text r.number r.place) };

    fn fmt<W: fmt::Write>(&self, f: &mut fmt::Formatter<W>) -> fmt::Result {
        write!(f, "refused {} at {}", self.number, self.place)
    }
}
