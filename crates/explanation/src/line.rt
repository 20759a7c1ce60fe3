// One move of a trail, and the statement beside it.
ghost use Rattle.std.specs.Prelude.{◌≡◌, Some};
ghost use Rattle.move_text.specs.Lines.{facts_text};
ghost use Rattle.explanation.specs.Lines.{explained_text, line_at};

use flow::interface::Problem;
use flow::worded::Worded;
use listing::numbers::Cell;
use listing::program::Program;
use listing::statement::Statement;
use move_text::{Item, MoveLine};
use moves::moves::Move;
use paths::analysis::Analysis;
use statement_text::SpeltStatement;
use std::fmt;

// A move, and the statement at the point where it arrives in a program with so many globals.
#[derive(Drop)]
pub(crate) struct ExplainedLine<I> {
    pub line: MoveLine<I>,
    pub globals: u8,
    pub statement: Option<Statement<Cell>>,
}

impl<I: Worded> ExplainedLine<I> {
    // A move of an analysis, after which so many calls are open.
    pub fn of<P: Program, Q: Problem<Item = I>>(
        on: &Analysis<P, Q>,
        arriving: Move,
        height: usize,
    ) -> ExplainedLine<I>
        ensures { explained_text I.text result ≡ line_at (P.meaning on.now.program.now) (facts_text I.text (Q.stands on.now.problem.now)) arriving height }
    {
        let item = Item {
            stands_for: on.problem.item(arriving.fact),
        };
        ExplainedLine {
            line: MoveLine {
                arriving,
                item,
                height,
            },
            globals: on.program.counts().globals,
            statement: on.program.statement(arriving.point),
        }
    }
}

impl<I: Worded> fmt::Display for ExplainedLine<I> {
    ghost output = { λ l. Some (explained_text I.text l) };

    fn fmt<W: fmt::Write>(&self, f: &mut fmt::Formatter<W>) -> fmt::Result {
        let line = &self.line;
        match self.statement {
            Some(statement) => {
                let globals = self.globals;
                write!(f, "{line}: {}", SpeltStatement { globals, statement })
            }
            None => write!(f, "{line}"),
        }
    }
}
