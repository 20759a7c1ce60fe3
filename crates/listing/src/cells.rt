// How many globals and locals a program has.
ghost use Rattle.std.specs.Prelude.{◌≡◌, ◌≤◌, true, false, MatchResult, Some};
ghost use Rattle.listing.specs.Faults.{number_of, place_of, fault_text};
ghost use Rattle.listing.specs.Lawful.{cells_in_range};
ghost use Rattle.listing.specs.declared.cells.Fault.TheVariants.{Range};

use crate::program::Program;
use crate::refused::Refused;
use std::fmt;

// Why counts are not made.
#[derive(Clone, Copy, PartialEq, Eq, Debug)]
pub enum Fault {
    // G or L is out of range
    Range,
}

impl Fault {
    // The number that a refusal tells.
    pub fn number(self) -> u8
        ensures { result ≡ number_of self }
    {
        match self {
            Fault::Range => 10,
        }
    }

    // The place that a refusal tells: 0, since counts have no line.
    pub fn place(self) -> usize
        ensures { result ≡ place_of self }
    {
        0
    }
}

impl fmt::Display for Fault {
    ghost output = { λ f. Some (fault_text f) };

    fn fmt<W: fmt::Write>(&self, f: &mut fmt::Formatter<W>) -> fmt::Result {
        let refused = Refused {
            number: self.number(),
            place: self.place(),
        };
        write!(f, "{refused}")
    }
}

// 0 to 31 globals, and 1 to 32 locals.
#[derive(Clone, Copy)]
pub struct CellCounts {
    globals: u8,
    locals: u8,
    ghost few_globals: { globals ≤ 31 },
    ghost some_locals: { 1 ≤ locals },
    ghost few_locals: { locals ≤ 32 },
}

impl CellCounts {
    pub fn new(globals: u8, locals: u8) -> Result<CellCounts, Fault>
        ensures { MatchResult result
            (λ c. (cells_in_range globals locals ≡ true) × (c.globals ≡ globals) × (c.locals ≡ locals))
            (λ f. (cells_in_range globals locals ≡ false) × (f ≡ Range)) }
    {
        if globals <= 31 && (1..=32).contains(&locals) {
            Ok(CellCounts { globals, locals })
        } else {
            Err(Fault::Range)
        }
    }

    // The counts of a program's cells: every program's are in range.
    pub fn of<P: Program>(program: &P) -> CellCounts
        ensures globals { result.globals ≡ (P.meaning program.now).globals }
        ensures locals { result.locals ≡ (P.meaning program.now).locals }
    {
        let counts = program.counts();
        CellCounts {
            globals: counts.globals,
            locals: counts.locals,
        }
    }

    // G
    pub fn globals(&self) -> u8
        ensures { result ≡ self.now.globals }
    {
        self.globals
    }

    // L
    pub fn locals(&self) -> u8
        ensures { result ≡ self.now.locals }
    {
        self.locals
    }
}
