// What comes of a call, and how a C program is told.
ghost use Rattle.std.specs.Prelude.{◌≡◌};
ghost use Rattle.exports.specs.Answers.{answer_of};

use listing::refused::Refused;

// What comes of a call: a number, a no to a question, or that memory is wanting.
#[derive(Clone, Copy)]
pub enum Outcome {
    Given(usize),
    Refused(Refused),
    OutOfMemory,
}

// The same as numbers: 0 with the number that is given, 1 with the question's number and the place, or 2. What a status does not use is 0.
#[repr(C)]
#[derive(Clone, Copy)]
pub struct Answer {
    pub status: u8,
    pub question: u8,
    pub place: usize,
    pub value: usize,
}

impl Outcome {
    pub(crate) fn answer(self) -> Answer
        ensures { result ≡ answer_of self }
    {
        match self {
            Outcome::Given(value) => Answer {
                status: 0,
                question: 0,
                place: 0,
                value,
            },
            Outcome::Refused(refused) => Answer {
                status: 1,
                question: refused.number,
                place: refused.place,
                value: 0,
            },
            Outcome::OutOfMemory => Answer {
                status: 2,
                question: 0,
                place: 0,
                value: 0,
            },
        }
    }
}
