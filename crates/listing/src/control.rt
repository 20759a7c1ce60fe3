// What a statement does to the flow of control.
ghost use Rattle.std.specs.Prelude.{◌≡◌};
ghost use Rattle.listing.specs.Statements.{controlled};

use crate::numbers::{Point, Proc};
use crate::statement::Statement;

#[derive(Clone, Copy, PartialEq, Eq, Debug)]
pub enum Control {
    // on to the next point
    Next,
    // to the target
    Goto { target: Point },
    // to the next point or to the target
    Test { target: Point },
    // into the callee, and later to the next point
    Call { callee: Proc },
    // out of the procedure
    Ret,
}

impl<C> Statement<C> {
    pub fn control(&self) -> Control
        ensures { result ≡ controlled self.now }
    {
        match self {
            Statement::Goto { target } => Control::Goto { target: *target },
            Statement::Test { target, .. } => Control::Test { target: *target },
            Statement::Call { callee, .. } => Control::Call { callee: *callee },
            Statement::Ret { .. } => Control::Ret,
            _ => Control::Next,
        }
    }
}
