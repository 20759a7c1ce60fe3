// A row of calls of a table, and what each gave, as words.
ghost use Rattle.std.specs.Prelude.{◌≡◌};
ghost use Rattle.table.specs.State.{code_in};

use crate::answer::Answer;
use crate::call::Call;
use crate::tabulation::{Given, Tabulation};
use flow::interface::Problem;
use given_problem::given::problem_of;
use listing::program::Program;
use moves::moves::Kind;
use paths::analysis::Analysis;
use records::record::Record;
use records::tallies::Tallies;
use std::alloc::{AllocError, Global};
use table::state::{OpenTable, records_for};
use text::text::Text;

// The word between what the calls gave and the records.
const END_OF_CALLS: u32 = 9999;

// Tells an answer, and how many cells are then found, settled and waiting.
fn tell_answer(out: &mut Vec<u32>, answer: Answer, tallies: Tallies) -> Result<(), AllocError> {
    out.push(answer.word())?;
    out.push(tallies.found)?;
    out.push(tallies.settled)?;
    out.push(tallies.waiting)?;
    Ok(())
}

// Tells how many words were written, and the words.
fn tell_written(out: &mut Vec<u32>, written: &[u32]) -> Result<(), AllocError> {
    out.push(u32::try_from(written.len()).unwrap_or(u32::MAX))?;
    for word in written {
        out.push(*word)?;
    }
    Ok(())
}

// Performs a call, and tells what it gave; the table comes back.
fn perform<P: Program, Q: Problem>(
    alloc: Global,
    table: Tabulation,
    on: &Analysis<P, Q>,
    call: Call,
    out: &mut Vec<u32>,
) -> Result<Tabulation, AllocError> {
    let (table, given) = table.call(alloc, on, call)?;
    tell_answer(out, given.answer, table.tallies())?;
    if call.writes() {
        tell_written(out, given.written.as_slice())?;
    }
    Ok(table)
}

// 0 where the cell is not found.
fn kind_word(kind: Option<Kind>) -> u32
    ensures { result ≡ code_in kind }
{
    match kind {
        None => 0,
        Some(Kind::Start) => 1,
        Some(Kind::Step) => 2,
        Some(Kind::Past) => 3,
        Some(Kind::Call) => 4,
        Some(Kind::Return) => 5,
    }
}

// Tells each record.
fn tell_records(out: &mut Vec<u32>, records: &[Record]) -> Result<(), AllocError> {
    for record in records {
        out.push(record.rank)?;
        out.push(kind_word(record.kind))?;
        out.push(record.first)?;
        out.push(record.second)?;
    }
    Ok(())
}

// A table newly opened, with a record for each cell.
fn opened<P: Program, Q: Problem>(alloc: Global, on: &Analysis<P, Q>) -> Option<OpenTable> {
    let memory = Record::blanks(alloc, records_for(on) as usize).ok()?;
    OpenTable::open(memory, on).ok()
}

// Performs each call that words tell, and then tells the records.
fn perform_all<P: Program, Q: Problem>(
    alloc: Global,
    on: &Analysis<P, Q>,
    run: &[u32],
) -> Option<Vec<u32>> {
    let mut table = Tabulation::Open(opened(alloc, on)?);
    let mut out = Vec::new(alloc);
    for words in run.chunks_exact(3) {
        table = perform(alloc, table, on, Call::of(words), &mut out).ok()?;
    }
    out.push(END_OF_CALLS).ok()?;
    tell_records(&mut out, table.end().as_slice()).ok()?;
    Some(out)
}

// The words of a row of calls; none where the listing is refused, the relation has not its length or memory is wanting.
pub(crate) fn tabulated(
    alloc: Global,
    listing: &[u8],
    relation: &[u8],
    facts: u8,
    run: &[u32],
) -> Option<Vec<u32>> {
    let mut program = Text::shortest();
    program.read(listing).ok()?;
    let problem = problem_of(alloc, &program, relation, facts).ok()?;
    let on = &Analysis {
        program: &program,
        problem: &problem,
    };
    perform_all(alloc, on, run)
}

#[cfg(test)]
mod tests {
    use super::*;
    use std::test::Fail;

    // Procedure 0 calls procedure 1. Over two facts zero follows from zero into the callee and back, and nothing else does.
    const LISTING: &[u8] = b"cells 0 1\ncall l0 1 l0\nret l0\nret l0\n";

    // Procedure 1 is sown and then procedure 0, all is settled, the oldest first, and the table closed.
    const RUN: [u32; 12] = [1, 1, 0, 1, 0, 0, 2, 100, 0, 4, 0, 0];

    // What each call gives, with the cells found, settled and waiting after it.
    const GIVEN: [u32; 17] = [1, 1, 0, 1, 1, 2, 0, 2, 3, 3, 3, 0, 0, 3, 3, 0, 9999];

    // Of the records, worked out by hand, three are found: the two starts, cells 0 and 8, and the return to cell 4 from both.
    #[test]
    fn a_return(rt: HostRuntime) -> Result<(), Fail> {
        let mut relation = [0u8; 192];
        relation[32] = 1;
        relation[48] = 1;
        let words = tabulated(rt.alloc(), LISTING, &relation, 2, &RUN).ok_or("refused")?;
        assert_eq!(rt; words.len(), 65);
        assert_eq!(rt; &words.as_slice()[..17], GIVEN.as_slice());
        assert_eq!(rt; &words.as_slice()[17..21], [2, 1, 0, 0].as_slice());
        assert_eq!(rt; &words.as_slice()[33..37], [3, 5, 0, 8].as_slice());
        assert_eq!(rt; &words.as_slice()[49..53], [1, 1, 0, 0].as_slice());
        Ok(())
    }
}
