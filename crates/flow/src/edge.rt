// The edges of a program.
ghost use Rattle.std.specs.Prelude.{◌≡◌};
ghost use Rattle.flow.specs.Relation.{exists, statement_of};

use listing::control::Control;
use listing::numbers::{Cell, Point};
use listing::statement::Statement;

// An edge, with the point that it leaves and the statement there; for a return, those of the call, and the cell that the
// callee returns.
// A struct of a point, a statement and a kind is no plainer: the definitions of paths go by cases over these four, and only a
// return has a result.
#[derive(Clone, Copy)]
pub enum Edge {
    // to a successor of a statement that is neither `call` nor `ret`
    Step {
        at: Point,
        statement: Statement<Cell>,
    },
    // from a call to the point after it
    Past {
        at: Point,
        statement: Statement<Cell>,
    },
    // from a call to the callee's entry
    Call {
        at: Point,
        statement: Statement<Cell>,
    },
    // from the callee's exit to the point after the call
    Return {
        at: Point,
        statement: Statement<Cell>,
        result: Cell,
    },
}

impl Edge {
    // Whether the statement has an edge of this kind.
    pub fn exists(&self) -> bool
        ensures { result ≡ exists self.now }
    {
        match self {
            Edge::Step { statement, .. } => {
                !matches!(statement.control(), Control::Call { .. } | Control::Ret)
            }
            Edge::Past { statement, .. }
            | Edge::Call { statement, .. }
            | Edge::Return { statement, .. } => matches!(statement.control(), Control::Call { .. }),
        }
    }

    // The statement at the point that is left; for a return, the call.
    pub fn statement(&self) -> Statement<Cell>
        ensures { result ≡ statement_of self.now }
    {
        match *self {
            Edge::Step { statement, .. }
            | Edge::Past { statement, .. }
            | Edge::Call { statement, .. }
            | Edge::Return { statement, .. } => statement,
        }
    }
}
