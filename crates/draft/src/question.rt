// The questions that are put to a delivered program, in their order.
ghost use Rattle.std.specs.Prelude.{◌≡◌, Some};
ghost use Rattle.draft.specs.Questions.{number_of, refused_of, refusal_text};

use listing::numbers::Point;
use listing::refused::Refused;
use std::fmt;

#[derive(Clone, Copy, PartialEq, Eq, Debug)]
pub enum Question {
    // is it neither too short nor too long?
    Size,
    // has each part its form?
    Form,
    // are G and L in range?
    Ranges,
    // is N in range?
    Length,
    // is the last statement `ret`?
    End,
    // is there no 61st `ret`?
    Procedures,
    // is every cell one of the program's?
    Cells,
    // does each `goto` and `test` stay in its procedure?
    Jumps,
    // does each called procedure exist?
    Callees,
}

impl Question {
    // The number that a refusal tells.
    pub fn number(self) -> u8
        ensures { result ≡ number_of self }
    {
        match self {
            Question::Size => 1,
            Question::Form => 2,
            Question::Ranges => 3,
            Question::Length => 4,
            Question::End => 5,
            Question::Procedures => 6,
            Question::Cells => 7,
            Question::Jumps => 8,
            Question::Callees => 9,
        }
    }
}

// The first no: its question, and the place as the make counts places.
#[derive(Clone, Copy, PartialEq, Eq, Debug)]
pub struct Refusal {
    pub question: Question,
    pub place: usize,
}

impl Refusal {
    // The number and the place that a refusal tells.
    pub fn refused(self) -> Refused
        ensures { result ≡ refused_of self }
    {
        Refused {
            number: self.question.number(),
            place: self.place,
        }
    }
}

impl fmt::Display for Refusal {
    ghost output = { λ r. Some (refusal_text r) };

    fn fmt<W: fmt::Write>(&self, f: &mut fmt::Formatter<W>) -> fmt::Result {
        write!(f, "{}", self.refused())
    }
}

// A no to a question about statements, and the first point of which it is true.
#[derive(Clone, Copy, PartialEq, Eq, Debug)]
pub struct Breach {
    pub question: Question,
    pub point: Point,
}
