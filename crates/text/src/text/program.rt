// A text is a program: the file's bytes and the indexes tell what it means.
ghost use Rattle.text.specs.Reading.{meaning_of};
ghost use Rattle.text.specs.Text.{bytes_of, lawful_of};

use crate::text::Text;
use listing::counts::Counts;
use listing::numbers::{Cell, Point, Proc};
use listing::program::Program;
use listing::statement::Statement;

impl Program for Text<'_> {
    ghost meaning = { λ t. meaning_of (bytes_of t) };

    ghost lawful = { lawful_of };

    #[tactic(auto, using(crate::proofs::Lawful::as_long))]
    fn counts(&self) -> Counts {
        let cells = self.delivered.cells;
        Counts {
            globals: cells.globals(),
            locals: cells.locals(),
            points: self.delivered.points,
            procedures: self.procedures.count(),
        }
    }

    // Out of the file's own bytes.
    #[tactic(auto, using(crate::proofs::Lawful::as_ended, crate::proofs::Lawful::as_written))]
    fn statement(&self, n: Point) -> Option<Statement<Cell>> {
        self.delivered.numbered(self.delivered.statement(n)?)
    }

    fn procedure_of(&self, n: Point) -> Option<Proc> {
        self.procedures.procedure_of(n)
    }

    fn entry(&self, p: Proc) -> Option<Point> {
        self.procedures.entry(p)
    }

    fn exit(&self, p: Proc) -> Option<Point> {
        self.procedures.exit(p)
    }

    fn first_caller(&self, p: Proc) -> Option<Point> {
        self.callers.first(p)
    }

    fn next_caller(&self, n: Point) -> Option<Point> {
        self.callers.next(n)
    }
}
