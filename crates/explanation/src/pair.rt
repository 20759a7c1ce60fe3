// The trail of a pair, over a problem tabulated from its default starts.
ghost use Rattle.std.specs.Prelude.{◌≡◌, IfOk, string_bytes};
ghost use Rattle.findings.specs.Outcome.{Settled};
ghost use Rattle.move_text.specs.Lines.{facts_text};
ghost use Rattle.paths.specs.Handing.{handed_by};
ghost use Rattle.records.specs.Faults.{number_of};
ghost use Rattle.table.specs.State.{state};
ghost use Rattle.explanation.specs.Explained.{records_of, accepted_of, room, memory_of, refused_line, explained, Explains};

use crate::lines::trail_lines;
use findings::fill::settle_all;
use flow::interface::Problem;
use listing::numbers::{Fact, Point};
use listing::program::Program;
use paths::analysis::Analysis;
use records::fault::Fault;
use records::record::Record;
use std::alloc::{AllocError, Global};
use table::state::{ClosedTable, records_for};
use trail::trail;

// How many words a trail may have, and how many calls its walk may keep.
const ROOM: usize = 4096;

// A point with a fact.
#[derive(Clone, Copy)]
pub struct Pair {
    pub point: Point,
    pub fact: Fact,
}

// The words that a trail is written over.
#[tactic(auto, unfolding(crate::specs::Explained::memory_of))]
fn blank_words(heap: Global) -> Result<Vec<u32>, AllocError>
    ensures { IfOk result (λ v. v.items ≡ memory_of room) }
{
    vec![in heap; 0; ROOM]
}

// A table of a program and a problem, with the default starts sown and every cell settled.
fn settled<P: Program, Q: Problem>(
    heap: Global,
    on: &Analysis<P, Q>,
) -> Result<ClosedTable, AllocError>
    ensures { IfOk result (λ t. let h = handed_by P.Program Q.Problem on.now in Settled h (Q.starts on.now.problem.now) (records_of h) (state t)) }
{
    let memory = Record::blanks(heap, records_for(on) as usize)?;
    // the memory has a record for each cell, so it is not refused
    let Ok(table) = settle_all(memory, on) else {
        unreachable()
    };
    Ok(table)
}

// A refusal, in a line.
fn refusal_line(heap: Global, fault: Fault) -> Result<String, AllocError>
    ensures { IfOk result (λ s. string_bytes s ≡ refused_line (number_of fault)) }
{
    format!(in heap; "{fault}\n")
}

// Tells the trail of a pair over a settled table.
fn tell_trail<P: Program, Q: Problem>(
    heap: Global,
    on: &Analysis<P, Q>,
    table: &ClosedTable,
    pair: Pair,
) -> Result<String, AllocError>
    requires { let h = handed_by P.Program Q.Problem on.now in Settled h (Q.starts on.now.problem.now) (records_of h) (state table.now) }
    ensures text { IfOk result (λ s. string_bytes s ≡ explained (handed_by P.Program Q.Problem on.now) (Q.starts on.now.problem.now) (P.meaning on.now.program.now) (facts_text Q.Item.text (Q.stands on.now.problem.now)) pair.point.0 pair.fact.0) }
    ensures law { IfOk result (λ s. let h = handed_by P.Program Q.Problem on.now in Explains h (accepted_of h (Q.starts on.now.problem.now)) (P.meaning on.now.program.now) (facts_text Q.Item.text (Q.stands on.now.problem.now)) pair.point.0 pair.fact.0 (string_bytes s)) }
{
    let mut words = blank_words(heap)?;
    let mut calls = Record::blanks(heap, ROOM)?;
    match trail(
        table,
        pair.point,
        pair.fact,
        words.as_mut_slice(),
        calls.as_mut_slice(),
    ) {
        Ok(count) => {
            words.truncate(count);
            trail_lines(heap, on, words.as_slice())
        }
        Err(fault) => refusal_line(heap, fault),
    }
}

// Tabulates a problem over a program from its default starts, and tells the trail of a pair, move by move with the statement where each
// arrives, or why there is none.
pub fn explain<P: Program, Q: Problem>(
    heap: Global,
    on: &Analysis<P, Q>,
    pair: Pair,
) -> Result<String, AllocError>
    ensures text { IfOk result (λ s. string_bytes s ≡ explained (handed_by P.Program Q.Problem on.now) (Q.starts on.now.problem.now) (P.meaning on.now.program.now) (facts_text Q.Item.text (Q.stands on.now.problem.now)) pair.point.0 pair.fact.0) }
    ensures law { IfOk result (λ s. let h = handed_by P.Program Q.Problem on.now in Explains h (accepted_of h (Q.starts on.now.problem.now)) (P.meaning on.now.program.now) (facts_text Q.Item.text (Q.stands on.now.problem.now)) pair.point.0 pair.fact.0 (string_bytes s)) }
{
    let table = settled(heap, on)?;
    tell_trail(heap, on, &table, pair)
}
