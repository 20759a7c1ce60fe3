// The trail of a pair: the words of a path to it, which the records of a closed table lead back along.
#![tactic(auto)]

ghost use Rattle.std.specs.Prelude.{length};
ghost use Rattle.paths.specs.Does.{Trails};
ghost use Rattle.stack.specs.Stack.{Free};
ghost use Rattle.table.specs.State.{state};
ghost use Rattle.table.specs.Told.{number_given};
ghost use Rattle.trail.specs.Trail.{ToldSo};

mod passes;
mod walk;

use crate::passes::{measure, write};
use listing::numbers::{Fact, Point};
use records::fault::Fault;
use records::record::Record;
use table::state::ClosedTable;

// Writes the trail of a pair as words, the start first, and gives their number; the words after them stay. It is the trail of the pair's found
// cell with the least origin. Where its words do not fit, or the records of the callees that it is in at once, all words stay. What the memory
// for calls holds afterwards is free.
#[tactic(auto, using(crate::proofs::Spelt::told_so))]
pub fn trail(
    table: &ClosedTable,
    point: Point,
    fact: Fact,
    words: &mut [u32],
    calls: &mut [Record],
) -> Result<usize, Fault>
    ensures trails { Trails (state table.now) point.0 fact.0 words.old (length calls.old) (number_given result) words.new }
    ensures law { ToldSo (state table.now) point.0 fact.0 words.old (length calls.old) (number_given result) words.new }
    ensures calls { Free calls.old calls.new }
{
    spell(table, point, fact, words, calls)
}

// The same; apart, since the law follows from what is answered and written, and so is shown once and not at each return.
#[tactic(auto, using(crate::proofs::Spelt::spelling))]
fn spell(
    table: &ClosedTable,
    point: Point,
    fact: Fact,
    words: &mut [u32],
    calls: &mut [Record],
) -> Result<usize, Fault>
    ensures { Trails (state table.now) point.0 fact.0 words.old (length calls.old) (number_given result) words.new }
{
    if !table.has_pair(point, fact) {
        return Err(Fault::Range);
    }
    let cell = table.least(point, fact).ok_or(Fault::Unreached)?;
    let count = measure(table, cell, words.len(), calls).ok_or(Fault::Full)?;
    write(table, cell, &mut words[..count], calls);
    Ok(count)
}
