// A table at its stage, and the calls that it takes there.

use crate::answer::Answer;
use crate::call::Call;
use flow::interface::Problem;
use listing::numbers::{Fact, Point};
use listing::program::Program;
use paths::analysis::Analysis;
use records::fault::Fault;
use records::record::Record;
use records::tallies::Tallies;
use report::state::Report;
use std::alloc::{AllocError, Global};
use table::state::{Closed, ClosedTable, OpenTable};
use trail::trail;

// So many words a trail may have, and so many callees it may be in at once.
const TRAIL_WORDS: usize = 4096;

const TRAIL_CALLS: usize = 64;

// So many bytes a report may have.
const REPORT_BYTES: usize = 1 << 20;

#[derive(Drop)]
pub(crate) enum Tabulation {
    Open(OpenTable),
    Closed(ClosedTable),
}

// What a call gave: its answer, and the words of a trail or the bytes of a report.
#[derive(Drop)]
pub(crate) struct Given {
    pub answer: Answer,
    pub written: Vec<u32>,
}

// What a call gave that wrote nothing.
fn unwritten(alloc: Global, answer: Answer) -> Given {
    Given {
        answer,
        written: Vec::new(alloc),
    }
}

// Closes a table, unless a cell still waits.
fn close(table: OpenTable) -> (Tabulation, Answer) {
    match table.close() {
        Ok(table) => (Tabulation::Closed(table), Answer::Gives(0)),
        Err(refusal) => (
            Tabulation::Open(refusal.back),
            Answer::Refuses(refusal.fault),
        ),
    }
}

// A call of an open table.
fn call_open<P: Program, Q: Problem>(
    table: OpenTable,
    on: &Analysis<P, Q>,
    call: Call,
) -> (Tabulation, Answer) {
    let mut table = table;
    let answer = match call {
        Call::Sow(p, d) => Answer::of(table.sow(on, p, d).map(u32::from)),
        Call::Work(k, end) => Answer::of(table.work(on, k, end)),
        Call::Close => return close(table),
        Call::Reopen | Call::Trail(..) | Call::Report | Call::Unknown => Answer::NotPut,
    };
    (Tabulation::Open(table), answer)
}

// The trail of a pair.
fn trail_of(
    alloc: Global,
    table: &ClosedTable,
    point: Point,
    fact: Fact,
) -> Result<Given, AllocError> {
    let mut words = vec![in alloc; 0u32; TRAIL_WORDS]?;
    let mut calls = Record::blanks(alloc, TRAIL_CALLS)?;
    match trail(
        table,
        point,
        fact,
        words.as_mut_slice(),
        calls.as_mut_slice(),
    ) {
        Ok(count) => {
            words.truncate(count);
            Ok(Given {
                answer: Answer::Gives(u32::try_from(count).unwrap_or(u32::MAX)),
                written: words,
            })
        }
        Err(fault) => Ok(unwritten(alloc, Answer::Refuses(fault))),
    }
}

// Writes line after line while one is left. There are fewer lines than the loop has turns.
fn write_lines(report: &mut Report<Closed>, page: &mut [u8]) -> Result<(), Fault> {
    for _ in 0..u32::MAX {
        if !report.line(page)? {
            return Ok(());
        }
    }
    Ok(())
}

// Writes the report of a table on a page, and gives the table back and the place after the foot.
fn write_report(table: ClosedTable, page: &mut [u8]) -> (ClosedTable, Result<usize, Fault>) {
    let mut report = Report::begin(table);
    if let Err(fault) = write_lines(&mut report, page) {
        return (report.abandon(), Err(fault));
    }
    match report.foot(page) {
        Ok(footed) => (footed.table, Ok(footed.end)),
        Err(refusal) => (refusal.back.abandon(), Err(refusal.fault)),
    }
}

// Bytes, each as a word.
fn words_of(alloc: Global, bytes: &[u8]) -> Result<Vec<u32>, AllocError> {
    bytes.iter().map(|byte| u32::from(*byte)).collect(alloc)
}

// The report of a table, which comes back.
fn report_of(alloc: Global, table: ClosedTable) -> Result<(ClosedTable, Given), AllocError> {
    let mut page = vec![in alloc; 0u8; REPORT_BYTES]?;
    let (table, report) = write_report(table, page.as_mut_slice());
    match report {
        Ok(end) => {
            page.truncate(end);
            let given = Given {
                answer: Answer::Gives(0),
                written: words_of(alloc, page.as_slice())?,
            };
            Ok((table, given))
        }
        Err(fault) => Ok((table, unwritten(alloc, Answer::Refuses(fault)))),
    }
}

// A call of a closed table.
fn call_closed(
    alloc: Global,
    table: ClosedTable,
    call: Call,
) -> Result<(Tabulation, Given), AllocError> {
    match call {
        Call::Reopen => Ok((
            Tabulation::Open(table.reopen()),
            unwritten(alloc, Answer::Gives(0)),
        )),
        Call::Trail(point, fact) => {
            let given = trail_of(alloc, &table, point, fact)?;
            Ok((Tabulation::Closed(table), given))
        }
        Call::Report => {
            let (table, given) = report_of(alloc, table)?;
            Ok((Tabulation::Closed(table), given))
        }
        Call::Sow(..) | Call::Work(..) | Call::Close | Call::Unknown => Ok((
            Tabulation::Closed(table),
            unwritten(alloc, Answer::NotPut),
        )),
    }
}

impl Tabulation {
    // Performs a call, if the table is at a stage that takes it.
    pub fn call<P: Program, Q: Problem>(
        self,
        alloc: Global,
        on: &Analysis<P, Q>,
        call: Call,
    ) -> Result<(Tabulation, Given), AllocError> {
        match self {
            Tabulation::Open(table) => {
                let (table, answer) = call_open(table, on, call);
                Ok((table, unwritten(alloc, answer)))
            }
            Tabulation::Closed(table) => call_closed(alloc, table, call),
        }
    }

    pub fn tallies(&self) -> Tallies {
        match self {
            Tabulation::Open(table) => table.tallies(),
            Tabulation::Closed(table) => table.tallies(),
        }
    }

    // Ends the table, and gives its records.
    pub fn end(self) -> Vec<Record> {
        match self {
            Tabulation::Open(table) => table.end(),
            Tabulation::Closed(table) => table.end(),
        }
    }
}
