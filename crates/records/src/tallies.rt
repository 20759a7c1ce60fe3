// The tallies of a table.
ghost use Rattle.std.specs.Prelude.{Some};
ghost use Rattle.records.specs.Texts.{tallies_text};

use std::fmt;

#[derive(Clone, Copy, PartialEq, Eq, Debug)]
pub struct Tallies {
    pub found: u32,
    pub settled: u32,
    pub waiting: u32,
}

impl fmt::Display for Tallies {
    ghost output = { λ t. Some (tallies_text t) };

    fn fmt<W: fmt::Write>(&self, f: &mut fmt::Formatter<W>) -> fmt::Result {
        write!(
            f,
            "found {} settled {} waiting {}",
            self.found, self.settled, self.waiting
        )
    }
}
