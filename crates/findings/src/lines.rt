// A report of a closed table, on one page.
ghost use Rattle.std.specs.Prelude.{◌≡◌, List, ℕ};
ghost use Rattle.paths.specs.Does.{Handed, Closed};
ghost use Rattle.table.specs.State.{state};
ghost use Rattle.report.specs.Told.{reported};
ghost use Rattle.findings.specs.Report.{Led, Underway, Finished, Filled, Lines};

use crate::written::Written;
use records::fault::{Fault, Refusal};
use records::record::Record;
use report::length::report_len;
use report::state::Report;
use table::state::{ClosedTable, Stage};

// Writes line after line while one is left.
fn write_lines<S: Stage>(report: &mut Report<S>, page: &mut [u8]) -> Result<(), Fault>
    ensures lines { (h : Handed) (starts : List (ℕ × ℕ)) → Lines h starts (reported report.old) page.old result (reported report.new) page.new }
    ensures table { report.new.table ≡ report.old.table }
{
    while report.line(page)? {}
    Ok(())
}

// Writes what is left of a report, and gives the memory back. A report that does not fit is abandoned.
fn finish<S: Stage>(mut report: Report<S>, page: &mut [u8]) -> Result<Written, Refusal<Vec<Record>>>
    ensures { (h : Handed) (starts : List (ℕ × ℕ)) → Underway h starts (reported report) page.old → Finished h starts (reported report).table report.table.core.records page.old result page.new }
{
    if let Err(fault) = write_lines(&mut report, page) {
        return Err(Refusal {
            fault,
            back: report.abandon().end(),
        });
    }
    match report.foot(page) {
        Ok(footed) => Ok(Written {
            count: footed.end,
            memory: footed.table.end(),
        }),
        Err(refusal) => Err(Refusal {
            fault: refusal.fault,
            back: refusal.back.abandon().end(),
        }),
    }
}

// Writes the report of a table at the front of a page, and gives the table's memory back. That it fits is asked first, so that a page that is
// too short stays as it was.
pub(crate) fn write_report(
    table: ClosedTable,
    page: &mut [u8],
) -> Result<Written, Refusal<Vec<Record>>>
    ensures { (h : Handed) (starts : List (ℕ × ℕ)) → Led h starts (Closed (state table)) → Filled h starts table page.old result page.new }
{
    if page.len() < report_len(&table) {
        return Err(Refusal {
            fault: Fault::Full,
            back: table.end(),
        });
    }
    finish(Report::begin(table), page)
}
