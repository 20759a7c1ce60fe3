// A statement of a program, as a listing spells it.
#![tactic(auto)]

ghost use Rattle.std.specs.Prelude.{◌≡◌, Some};
ghost use Rattle.grammar.specs.Spelling.{name_spelt};
ghost use Rattle.statement_text.specs.Named.{name_of, statement_spelt};

use listing::numbers::Cell;
use listing::statement::Statement;
use std::fmt;

// A cell of a program with so many globals.
#[derive(Clone, Copy)]
struct SpeltCell {
    globals: u8,
    cell: Cell,
}

impl fmt::Display for SpeltCell {
    ghost output = { λ c. Some (name_spelt (name_of c.globals c.cell)) };

    fn fmt<W: fmt::Write>(&self, f: &mut fmt::Formatter<W>) -> fmt::Result {
        match self.cell.0.checked_sub(self.globals) {
            Some(local) => write!(f, "l{local}"),
            None => write!(f, "g{}", self.cell.0),
        }
    }
}

// A statement of a program with so many globals.
#[derive(Clone, Copy)]
pub struct SpeltStatement {
    pub globals: u8,
    pub statement: Statement<Cell>,
}

impl SpeltStatement {
    fn cell(&self, cell: Cell) -> SpeltCell
        ensures { result ≡ record { globals = self.now.globals; cell = cell } }
    {
        SpeltCell {
            globals: self.globals,
            cell,
        }
    }
}

impl fmt::Display for SpeltStatement {
    ghost output = { λ s. Some (statement_spelt s.globals s.statement) };

    fn fmt<W: fmt::Write>(&self, f: &mut fmt::Formatter<W>) -> fmt::Result {
        match self.statement {
            Statement::Set { to } => write!(f, "set {}", self.cell(to)),
            Statement::Move { to, from } => write!(f, "move {} {}", self.cell(to), self.cell(from)),
            Statement::Add { to, left, right } => write!(
                f,
                "add {} {} {}",
                self.cell(to),
                self.cell(left),
                self.cell(right)
            ),
            Statement::Read { to } => write!(f, "read {}", self.cell(to)),
            Statement::Send { from } => write!(f, "send {}", self.cell(from)),
            Statement::Goto { target } => write!(f, "goto {}", target.0),
            Statement::Test { from, target } => {
                write!(f, "test {} {}", self.cell(from), target.0)
            }
            Statement::Call {
                to,
                callee,
                argument,
            } => write!(
                f,
                "call {} {} {}",
                self.cell(to),
                callee.0,
                self.cell(argument)
            ),
            Statement::Ret { from } => write!(f, "ret {}", self.cell(from)),
            Statement::Trim { to, from } => write!(f, "trim {} {}", self.cell(to), self.cell(from)),
        }
    }
}
