// One procedure.
ghost use Rattle.std.specs.Prelude.{◌≡◌, ◌+◌, ◌-◌, ◌<◌, Some};
ghost use Rattle.listing.specs.Meaning.{below, procs};
ghost use Rattle.overview.specs.Outlined.{calls_at, calls_from, section, section_text};

use listing::numbers::{Cell, Point, Proc};
use listing::program::Program;
use listing::statement::Statement;
use std::fmt;
use std::ops::Range;

// A procedure, its entry, its exit, and how many statements and calls it has.
#[derive(Clone, Copy)]
pub(crate) struct Section {
    pub procedure: Proc,
    pub entry: Point,
    pub exit: Point,
    pub statements: usize,
    pub calls: usize,
}

impl fmt::Display for Section {
    ghost output = { λ s. Some (section_text s) };

    fn fmt<W: fmt::Write>(&self, f: &mut fmt::Formatter<W>) -> fmt::Result {
        write!(
            f,
            "procedure {} entry {} exit {} statements {} calls {}",
            self.procedure.0, self.entry.0, self.exit.0, self.statements, self.calls
        )
    }
}

fn is_call(statement: Option<Statement<Cell>>) -> bool
    ensures { result ≡ calls_at statement }
{
    matches!(statement, Some(Statement::Call { .. }))
}

// How many of some points have a call.
fn count_calls<P: Program>(program: &P, points: Range<u16>) -> usize
    ensures { result ≡ calls_from (P.meaning program.now) points.start (points.end - points.start) }
{
    points
        .filter(|n| is_call(program.statement(Point(*n))))
        .count()
}

// What is told of a procedure, or none from P on.
pub(crate) fn section_of<P: Program>(program: &P, procedure: Proc) -> Option<Section>
    ensures { result ≡ below procedure.0 (procs (P.meaning program.now)) (section (P.meaning program.now) procedure.0) }
{
    let entry = program.entry(procedure)?;
    let exit = program.exit(procedure)?;
    // `entry.0..=exit.0` was tried: the proof of the count did not close over an inclusive range
    let points = entry.0..exit.0 + 1;
    Some(Section {
        procedure,
        entry,
        exit,
        statements: points.len(),
        calls: count_calls(program, points),
    })
}
