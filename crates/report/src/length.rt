// How long a report is.
ghost use Rattle.std.specs.Prelude.{◌≡◌, ◌≤◌, length};
ghost use Rattle.paths.specs.Page.{report_text};
ghost use Rattle.table.specs.State.{state};

use listing::numbers::{Fact, Point};
use page::{foot_len, line_len};
use table::state::{Stage, Staged};

// How many bytes the report of a table takes: a line for each pair that has a found cell, and the foot.
pub fn report_len<S: Stage>(table: &Staged<S>) -> usize
    ensures value { result ≡ length (report_text (state table.now)) }
    ensures few { result ≤ 3_456_054 }
{
    let facts = u32::from(table.facts());
    let mut pairs = 0;
    let mut bytes = 0;
    for number in 0..u32::from(table.points()) * facts {
        let point = Point((number / facts) as u16);
        let fact = Fact((number % facts) as u8);
        if table.least(point, fact).is_some() {
            pairs += 1;
            bytes += line_len(point, fact);
        }
    }
    bytes + foot_len(pairs, table.tallies().settled)
}
