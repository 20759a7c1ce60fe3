// What a call gives, as a word.

use records::fault::Fault;

#[derive(Clone, Copy)]
pub(crate) enum Answer {
    Gives(u32),
    Refuses(Fault),
    // the table is not at the stage that the call is for
    NotPut,
}

impl Answer {
    // The answer of a call that gives a number.
    pub fn of(given: Result<u32, Fault>) -> Answer {
        match given {
            Ok(number) => Answer::Gives(number),
            Err(fault) => Answer::Refuses(fault),
        }
    }

    pub fn word(self) -> u32 {
        match self {
            Answer::Gives(number) => number,
            Answer::Refuses(fault) => 1000 + u32::from(fault.number()),
            Answer::NotPut => 2000,
        }
    }
}
