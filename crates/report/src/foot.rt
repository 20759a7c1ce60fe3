// The end of a report: its foot, or that it is abandoned.
ghost use Rattle.std.specs.Prelude.{◌≡◌, IfOk};
ghost use Rattle.paths.specs.Does.{Foots, Closed};
ghost use Rattle.paths.specs.Page.{foot_text};
ghost use Rattle.table.specs.State.{state};
ghost use Rattle.report.specs.Told.{reported, footed, left_footed, Feet, GivesBack, KeepsLaw};

use crate::place::put_foot;
use crate::state::{Footed, Report};
use records::fault::{Fault, Refusal};
use table::state::{Stage, Staged};

impl<S: Stage> Report<S> {
    // Writes the foot at the page's next free place, and gives how many bytes it took; not while a pair has no line.
    #[tactic(auto, using(crate::proofs::Feet::feet))]
    fn put_foot(&self, page: &mut [u8]) -> Result<usize, Fault>
        ensures { Feet (reported self.now) page.old result page.new }
    {
        if self.next_pair().is_some() {
            return Err(Fault::Unwritten);
        }
        let cells = self.table.tallies().settled;
        put_foot(page, self.place, self.lines, cells)
    }

    // Writes the foot at the page's next free place, and gives the table back, with the place after the foot.
    #[tactic(auto, using(crate::proofs::Feet::keeps))]
    pub fn foot(self, page: &mut [u8]) -> Result<Footed<S>, Refusal<Report<S>>>
        ensures foots { Foots (reported self) page.old (footed result) page.new (left_footed result) }
        ensures back { GivesBack self result }
        ensures law { KeepsLaw (reported self) page.old (footed result) page.new (left_footed result) }
    {
        match self.put_foot(page) {
            Ok(count) => {
                let end = self.place + count;
                Ok(Footed {
                    table: self.abandon(),
                    end,
                })
            }
            Err(fault) => Err(Refusal { fault, back: self }),
        }
    }

    // Gives the table back, and writes nothing.
    pub fn abandon(self) -> Staged<S>
        ensures { result ≡ self.table }
    {
        let Report { table, token, .. } = self;
        token.spend();
        table
    }
}
