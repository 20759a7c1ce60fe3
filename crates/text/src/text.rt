// A text that was read: its bytes, which are its lines' own, and what makes look-ups cheap.
ghost use Rattle.std.specs.Prelude.{◌≡◌, true};
ghost use Rattle.listing.specs.Lawful.{is_lawful};
ghost use Rattle.listing.specs.Meaning.{flow};
ghost use Rattle.draft.specs.Index.{Describes, Threads};
ghost use Rattle.text.specs.Reading.{meaning_of, accepted};

use crate::delivered::Delivered;
use draft::callers::Callers;
use draft::procedures::Procedures;

mod program;
mod reading;

#[derive(Clone, Copy)]
pub struct Text<'a> {
    delivered: Delivered<'a>,
    procedures: Procedures,
    callers: Callers,
    ghost accepted: { accepted delivered.bytes.now ≡ true },
    ghost lawful: { is_lawful (meaning_of delivered.bytes.now) ≡ true },
    ghost described: { Describes procedures (flow (meaning_of delivered.bytes.now)) },
    ghost threaded: { Threads callers (flow (meaning_of delivered.bytes.now)) },
}
