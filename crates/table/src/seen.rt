// The statements that one call of a table has read. A program may be another at each call, so they are not kept from call to call.
ghost use Rattle.std.specs.Prelude.{◌≡◌, length, replicate, None};
ghost use Rattle.listing.specs.Meaning.{Meaning, statement_at};
ghost use Rattle.table.specs.Seen.{Recalls};

use listing::numbers::{Cell, Point};
use listing::program::Program;
use listing::statement::Statement;

// The statements of the points at which one was read, each at its place in memory that is lent. At a point without a place none is kept.
#[derive(Drop)]
pub(crate) struct Seen<'a> {
    statements: &'a mut [Option<Statement<Cell>>],
}

impl<'a> Seen<'a> {
    // None has been read.
    pub fn over(statements: &'a mut [Option<Statement<Cell>>]) -> Seen<'a>
        requires { statements.now ≡ replicate (length statements.now) None }
        ensures { (m : Meaning) → Recalls m result }
    {
        Seen { statements }
    }

    // The statement at a point, which is read where it was not before.
    pub fn statement<P: Program>(&mut self, program: &P, n: Point) -> Option<Statement<Cell>>
        requires { Recalls (P.meaning program.now) self.old }
        ensures value { result ≡ statement_at (P.meaning program.now) n }
        ensures recalls { Recalls (P.meaning program.now) self.new }
    {
        let at = usize::from(n.0);
        if at >= self.statements.len() {
            return program.statement(n);
        }
        if let Some(statement) = self.statements[at] {
            return Some(statement);
        }
        let statement = program.statement(n)?;
        self.statements[at] = Some(statement);
        Some(statement)
    }
}
