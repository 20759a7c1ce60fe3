// Why a trail does not pass.
ghost use Rattle.std.specs.Prelude.{◌≡◌, Some};
ghost use Rattle.trail_check.specs.Faults.{number_of, place_of, fault_text};

use listing::refused::Refused;
use std::fmt;

#[derive(Clone, Copy, PartialEq, Eq, Debug)]
pub enum Fault {
    // the memory for open calls has fewer entries than there are words
    Room,
    // the word at this place, from 0, is no lawful move
    Stray { place: usize },
}

impl Fault {
    // The number that a refusal tells.
    pub fn number(self) -> u8
        ensures { result ≡ number_of self }
    {
        match self {
            Fault::Room => 17,
            Fault::Stray { .. } => 18,
        }
    }

    // The place that a refusal tells.
    pub fn place(self) -> usize
        ensures { result ≡ place_of self }
    {
        match self {
            Fault::Room => 0,
            Fault::Stray { place } => place,
        }
    }
}

impl fmt::Display for Fault {
    ghost output = { λ f. Some (fault_text f) };

    fn fmt<W: fmt::Write>(&self, f: &mut fmt::Formatter<W>) -> fmt::Result {
        let refused = Refused {
            number: self.number(),
            place: self.place(),
        };
        write!(f, "{refused}")
    }
}
