// What is told of a problem, at the front of a page that is lent.
ghost use Rattle.std.specs.Prelude.{◌≡◌, length, OnOk};
ghost use Rattle.std.specs.Str.{IsUtf8};
ghost use Rattle.paths.specs.Handing.{handed_by};
ghost use Rattle.findings.specs.Told.{body, reported, problem_text, room_in, Reports, Tells};
ghost use Rattle.findings.specs.Written.{taken, Fronts, Returned};

use crate::fill::settle_all;
use crate::lines::write_report;
use crate::written::{Written, write_refused};
use flow::interface::Problem;
use listing::program::Program;
use page::{heading_len, refusal_len, write_heading};
use paths::analysis::Analysis;
use records::fault::{Fault, Refusal};
use records::record::Record;
use report::length::report_len;
use table::state::ClosedTable;

// A table with the default starts sown and every cell settled, whose report takes at most so many bytes; or why there is none, and the memory.
fn reportable<P: Program, Q: Problem>(
    memory: Vec<Record>,
    on: &Analysis<P, Q>,
    most: usize,
) -> Result<ClosedTable, Refusal<Vec<Record>>>
    ensures { Reports (handed_by P.Program Q.Problem on.now) (Q.starts on.now.problem.now) most memory result }
{
    let table = settle_all(memory, on)?;
    if most < report_len(&table) {
        return Err(Refusal {
            fault: Fault::Full,
            back: table.end(),
        });
    }
    Ok(table)
}

// How many bytes are told of a problem over a program, with the memory back: of any problem, and any make of a program.
pub fn problem_len<P: Program, Q: Problem>(
    memory: Vec<Record>,
    on: &Analysis<P, Q>,
    most: usize,
) -> (usize, Vec<Record>)
    ensures length { result.0 ≡ length (problem_text Q.NUMBER (handed_by P.Program Q.Problem on.now) (Q.starts on.now.problem.now) (room_in memory most)) }
    ensures returned { Returned (taken (handed_by P.Program Q.Problem on.now) (length memory.items)) memory result.1 }
{
    let heading = heading_len(Q::NUMBER);
    match reportable(memory, on, most) {
        Ok(table) => (heading + report_len(&table), table.end()),
        Err(refusal) => (heading + refusal_len(refusal.fault.refused()), refusal.back),
    }
}

// Writes the report of a problem, or why there is none, at the front of a page.
fn write_body<P: Program, Q: Problem>(
    memory: Vec<Record>,
    on: &Analysis<P, Q>,
    most: usize,
    page: &mut [u8],
) -> Result<Written, Refusal<Vec<Record>>>
    ensures text { let h = handed_by P.Program Q.Problem on.now in Fronts (body (reported h (Q.starts on.now.problem.now) (room_in memory most))) (taken h (length memory.items)) memory page.old result page.new }
    ensures utf8 { OnOk result (IsUtf8 (body (reported (handed_by P.Program Q.Problem on.now) (Q.starts on.now.problem.now) (room_in memory most)))) }
    ensures law { OnOk result (Tells (handed_by P.Program Q.Problem on.now) (Q.starts on.now.problem.now) (room_in memory most)) }
{
    match reportable(memory, on, most) {
        Ok(table) => write_report(table, page),
        Err(refusal) => write_refused(refusal.back, refusal.fault.refused(), page),
    }
}

// Writes the number of a problem, and then its report over a program or why there is none, at the front of a page: of any problem, and any make
// of a program. What stands behind is written first, so that a page that is too short stays as it was.
pub fn write_problem<P: Program, Q: Problem>(
    memory: Vec<Record>,
    on: &Analysis<P, Q>,
    most: usize,
    page: &mut [u8],
) -> Result<Written, Refusal<Vec<Record>>>
    ensures text { let h = handed_by P.Program Q.Problem on.now in Fronts (problem_text Q.NUMBER h (Q.starts on.now.problem.now) (room_in memory most)) (taken h (length memory.items)) memory page.old result page.new }
    ensures utf8 { OnOk result (IsUtf8 (problem_text Q.NUMBER (handed_by P.Program Q.Problem on.now) (Q.starts on.now.problem.now) (room_in memory most))) }
    ensures law { OnOk result (Tells (handed_by P.Program Q.Problem on.now) (Q.starts on.now.problem.now) (room_in memory most)) }
{
    let number = Q::NUMBER;
    let start = heading_len(number);
    if page.len() < start {
        return Err(Refusal {
            fault: Fault::Full,
            back: memory,
        });
    }
    let body = write_body(memory, on, most, &mut page[start..])?;
    let Some(_) = write_heading(page, number) else {
        unreachable()
    };
    Ok(Written {
        count: start + body.count,
        memory: body.memory,
    })
}
