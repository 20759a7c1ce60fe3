// The ten statements.
use crate::numbers::{Point, Proc};

// A statement over the cells C: numbered ones in a program, names in a text.
#[derive(Clone, Copy, PartialEq, Eq, Debug)]
pub enum Statement<C> {
    // `to` gets a constant
    Set { to: C },
    Move { to: C, from: C },
    Add { to: C, left: C, right: C },
    // `to` gets a raw reading
    Read { to: C },
    // `from` is transmitted
    Send { from: C },
    Goto { target: Point },
    Test { from: C, target: Point },
    // the callee runs with the argument in its local 0; `to` gets its result
    Call { to: C, callee: Proc, argument: C },
    Ret { from: C },
    // `to` gets `from` calibrated
    Trim { to: C, from: C },
}
