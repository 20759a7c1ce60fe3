// Why no problem is made of a table.
ghost use Rattle.std.specs.Prelude.{◌≡◌, Some};
ghost use Rattle.tabled_problem.specs.Faults.{number_of, place_of, fault_text};

use listing::refused::Refused;
use std::fmt;

#[derive(Clone, Copy, PartialEq, Eq, Debug)]
pub enum Fault {
    // there would be no fact, or more than 64
    Facts,
}

impl Fault {
    // The number that a refusal tells.
    pub fn number(self) -> u8
        ensures { result ≡ number_of self }
    {
        match self {
            Fault::Facts => 10,
        }
    }

    // The place that a refusal tells: 0, since a count has no line.
    pub fn place(self) -> usize
        ensures { result ≡ place_of self }
    {
        0
    }
}

impl fmt::Display for Fault {
    ghost output = { λ f. Some (fault_text f) };

    fn fmt<W: fmt::Write>(&self, f: &mut fmt::Formatter<W>) -> fmt::Result {
        let refused = Refused {
            number: self.number(),
            place: self.place(),
        };
        write!(f, "{refused}")
    }
}

// A refusal, with the rows that were handed over.
#[derive(Drop)]
pub struct Refusal {
    pub fault: Fault,
    pub back: Vec<u64>,
}
