// A call of a table, as three words.

use listing::numbers::{Fact, Point, Proc};
use paths::worklist::End;

#[derive(Clone, Copy)]
pub(crate) enum Call {
    Sow(Proc, Fact),
    Work(u32, End),
    Close,
    Reopen,
    Trail(Point, Fact),
    Report,
    // the words tell no call
    Unknown,
}

// A number of 16 bits; a larger one stands for the largest, which is out of range for every program.
fn short(word: u32) -> u16 {
    u16::try_from(word).unwrap_or(u16::MAX)
}

// A fact; a larger number stands for the largest, which is out of range for every problem.
fn fact(word: u32) -> Fact {
    Fact(u8::try_from(word).unwrap_or(u8::MAX))
}

impl Call {
    // The call that three words tell.
    pub fn of(words: &[u32]) -> Call {
        match *words {
            [1, p, d] => Call::Sow(Proc(short(p)), fact(d)),
            [2, k, _] => Call::Work(k, End::Oldest),
            [3, k, _] => Call::Work(k, End::Newest),
            [4, _, _] => Call::Close,
            [5, _, _] => Call::Reopen,
            [6, n, d] => Call::Trail(Point(short(n)), fact(d)),
            [7, _, _] => Call::Report,
            _ => Call::Unknown,
        }
    }

    // Whether the call writes something that is told with its answer.
    pub fn writes(self) -> bool {
        matches!(self, Call::Trail(..) | Call::Report)
    }
}
