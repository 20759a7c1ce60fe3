// One move of a path: its kind, and the point and the fact that it arrives at.
ghost use Rattle.std.specs.Prelude.{Some};
ghost use Rattle.moves.specs.Names.{kind_text};

use listing::numbers::{Fact, Point};
use std::fmt;

#[derive(Clone, Copy, PartialEq, Eq, Debug)]
pub enum Kind {
    // the path begins
    Start,
    // to a successor of a statement that is neither `call` nor `ret`
    Step,
    // from a call to the point after it
    Past,
    // from a call to the callee's entry
    Call,
    // from the callee's exit to the point after the call
    Return,
}

impl fmt::Display for Kind {
    ghost output = { λ k. Some (kind_text k) };

    fn fmt<W: fmt::Write>(&self, f: &mut fmt::Formatter<W>) -> fmt::Result {
        f.write_str(match self {
            Kind::Start => "start",
            Kind::Step => "step",
            Kind::Past => "past",
            Kind::Call => "call",
            Kind::Return => "return",
        })
    }
}

#[derive(Clone, Copy, PartialEq, Eq, Debug)]
pub struct Move {
    pub kind: Kind,
    pub point: Point,
    pub fact: Fact,
}
