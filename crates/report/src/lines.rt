// Beginning a report, and its lines.
ghost use Rattle.std.specs.Prelude.{◌≡◌, true, false, length, Ok};
ghost use Rattle.std.specs.Option.{is_some};
ghost use Rattle.paths.specs.Page.{pairs_of};
ghost use Rattle.paths.specs.Does.{begun, Lines};
ghost use Rattle.table.specs.State.{state};
ghost use Rattle.table.specs.Told.{least, one_if_yes};
ghost use Rattle.report.specs.Told.{reported, Next};

use crate::pair::Pair;
use crate::place::put_line;
use crate::state::Report;
use crate::token::Token;
use listing::numbers::{Fact, Point};
use records::fault::Fault;
use table::state::{Stage, Staged};

impl<S: Stage> Report<S> {
    // Begins a report of a closed table. That the table is closed is asked of the caller, so that a report of an open one is refused
    // before any run.
    pub fn begin(table: Staged<S>) -> Report<S>
        requires { S.closed ≡ true }
        ensures begun { reported result ≡ begun (state table) }
        ensures table { result.table ≡ table }
    {
        Report {
            table,
            next: 0,
            lines: 0,
            place: 0,
            token: Token::owed(),
        }
    }

    // Whether a pair of the table has a found cell, and so a line.
    fn is_listed(&self, point: Point, fact: Fact) -> bool
        ensures { result ≡ is_some (least (state self.now.table) point.0 fact.0) }
    {
        self.table.least(point, fact).is_some()
    }

    // The first pair that has no line yet, if any is left.
    pub(crate) fn next_pair(&self) -> Option<Pair>
        ensures { Next (reported self.now) result }
    {
        let facts = u32::from(self.table.facts());
        for number in self.next..u32::from(self.table.points()) * facts {
            let point = Point((number / facts) as u16);
            let fact = Fact((number % facts) as u8);
            if self.is_listed(point, fact) {
                return Some(Pair {
                    number,
                    point,
                    fact,
                });
            }
        }
        None
    }

    // Writes the next line at the page's next free place: whether one was left.
    pub fn line(&mut self, page: &mut [u8]) -> Result<bool, Fault>
        ensures lines { Lines (reported self.old) page.old (one_if_yes result) page.new (reported self.new) }
        ensures table { self.new.table ≡ self.old.table }
        ensures all { result ≡ Ok false → (reported self.new).lines ≡ length (pairs_of (reported self.new).table) }
    {
        let Some(pair) = self.next_pair() else {
            return Ok(false);
        };
        let count = put_line(page, self.place, pair)?;
        self.next = pair.number + 1;
        self.lines += 1;
        self.place += count;
        Ok(true)
    }
}
