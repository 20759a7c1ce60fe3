// Why a call of the table, or of a report of it, is refused.
ghost use Rattle.std.specs.Prelude.{◌≡◌, Some};
ghost use Rattle.records.specs.Faults.{number_of, place_of, refused_of, fault_text};

use listing::refused::Refused;
use std::fmt;

#[derive(Clone, Copy, PartialEq, Eq, Debug)]
pub enum Fault {
    // the memory has fewer records than the table has cells
    Memory,
    // N or F are not the table's
    Counts,
    // the procedure or the fact is out of range
    Range,
    // a cell still waits
    Waiting,
    // no cell of the pair is found
    Unreached,
    // a pair has no line yet
    Unwritten,
    // what is to be written does not fit
    Full,
}

impl Fault {
    // The number that a refusal tells.
    pub fn number(self) -> u8
        ensures { result ≡ number_of self }
    {
        match self {
            Fault::Memory => 11,
            Fault::Counts => 12,
            Fault::Range => 13,
            Fault::Waiting => 14,
            Fault::Unreached => 15,
            Fault::Unwritten => 16,
            Fault::Full => 17,
        }
    }

    // The place that a refusal tells: 0, since none of these has a line.
    pub fn place(self) -> usize
        ensures { result ≡ place_of self }
    {
        0
    }

    // The number and the place that a refusal tells.
    pub fn refused(self) -> Refused
        ensures { result ≡ refused_of self }
    {
        Refused {
            number: self.number(),
            place: self.place(),
        }
    }
}

impl fmt::Display for Fault {
    ghost output = { λ f. Some (fault_text f) };

    fn fmt<W: fmt::Write>(&self, f: &mut fmt::Formatter<W>) -> fmt::Result {
        write!(f, "{}", self.refused())
    }
}

// A refusal, with what was handed over for the call.
#[derive(Drop)]
pub struct Refusal<T> {
    pub fault: Fault,
    pub back: T,
}
