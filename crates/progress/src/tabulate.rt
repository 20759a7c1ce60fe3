// Tabulating a problem over a program, portion by portion.
ghost use Rattle.std.specs.Prelude.{◌≡◌, [], IfOk, string_bytes};
ghost use Rattle.paths.specs.Does.{gives, Closed, Closes};
ghost use Rattle.paths.specs.Handing.{handed_by};
ghost use Rattle.table.specs.State.{state, Serves};
ghost use Rattle.progress.specs.Progress.{accepted_of, enough, progress, EndsCounted};
ghost use Rattle.progress.specs.Told.{Seeded, WorkedOff};

use crate::portion::Pace;
use flow::interface::Problem;
use listing::program::Program;
use paths::analysis::Analysis;
use records::record::Record;
use starts::sow_starts;
use std::alloc::{AllocError, Global};
use std::fmt::Write;
use table::state::{OpenTable, records_for};

// Settles portion after portion while a cell waits, and tells the tallies after each.
fn work_off<P: Program, Q: Problem>(
    heap: Global,
    table: &mut OpenTable,
    on: &Analysis<P, Q>,
    pace: Pace,
) -> Result<String, AllocError>
    requires { Serves (handed_by P.Program Q.Problem on.now) table.old.core }
    ensures { let h = handed_by P.Program Q.Problem on.now in IfOk result (λ s. WorkedOff h pace.portion.size pace.from (enough h) (state table.old) (string_bytes s) (state table.new)) }
{
    let mut out = String::new(heap);
    while table.tallies().waiting > 0 {
        // the table is of this program and this problem, so the call is not refused
        let _ = table.work(on, pace.portion.size, pace.from);
        let tallies = table.tallies();
        writeln!(out, "{tallies}")?;
    }
    Ok(out)
}

// A table of a program and a problem, with the default starts sown.
fn seeded<P: Program, Q: Problem>(
    heap: Global,
    on: &Analysis<P, Q>,
) -> Result<OpenTable, AllocError>
    ensures { IfOk result (λ t. Seeded (handed_by P.Program Q.Problem on.now) (Q.starts on.now.problem.now) (state t)) }
{
    let memory = Record::blanks(heap, records_for(on) as usize)?;
    let Ok(mut table) = OpenTable::open(memory, on) else {
        unreachable()
    };
    sow_starts(&mut table, on);
    Ok(table)
}

// How many cells a table has settled in which nothing waits.
fn settled_cells(table: OpenTable) -> u32
    requires { (state table).waiting ≡ [] }
    ensures count { result ≡ (state table).settled }
    ensures closes { Closes (state table) (gives 0) (Closed (state table)) }
{
    let Ok(closed) = table.close() else {
        unreachable()
    };
    closed.tallies().settled
}

// Works off a table with the default starts sown: tells the tallies after each portion, and then the number of cells.
fn tell_all<P: Program, Q: Problem>(
    heap: Global,
    mut table: OpenTable,
    on: &Analysis<P, Q>,
    pace: Pace,
) -> Result<String, AllocError>
    requires { Seeded (handed_by P.Program Q.Problem on.now) (Q.starts on.now.problem.now) (state table) }
    ensures text { IfOk result (λ s. string_bytes s ≡ progress (handed_by P.Program Q.Problem on.now) (Q.starts on.now.problem.now) pace.portion.size pace.from) }
    ensures law { IfOk result (λ s. let h = handed_by P.Program Q.Problem on.now in EndsCounted h (accepted_of h (Q.starts on.now.problem.now)) (string_bytes s)) }
{
    let mut out = work_off(heap, &mut table, on, pace)?;
    let count = settled_cells(table);
    writeln!(out, "cells {count}")?;
    Ok(out)
}

// Tabulates a problem over a program from its default starts: tells the tallies after each portion, and then the number of cells.
pub fn tabulate<P: Program, Q: Problem>(
    heap: Global,
    on: &Analysis<P, Q>,
    pace: Pace,
) -> Result<String, AllocError>
    ensures text { IfOk result (λ s. string_bytes s ≡ progress (handed_by P.Program Q.Problem on.now) (Q.starts on.now.problem.now) pace.portion.size pace.from) }
    ensures law { IfOk result (λ s. let h = handed_by P.Program Q.Problem on.now in EndsCounted h (accepted_of h (Q.starts on.now.problem.now)) (string_bytes s)) }
{
    let table = seeded(heap, on)?;
    tell_all(heap, table, on, pace)
}
