// Reading: every question is put, and then a text that the caller holds is filled.
ghost use Rattle.std.specs.Prelude.{◌≡◌, [], ◌∷◌, Ok, Err, codes, MatchResult};
ghost use Rattle.listing.specs.Meaning.{totals};
ghost use Rattle.text.specs.Law.{ReadsByLaw};
ghost use Rattle.text.specs.Cases.{listed};
ghost use Rattle.text.specs.Reading.{on_line, meaning_of, refused, answered, reading};
ghost use Rattle.text.specs.Text.{bytes_of};

use crate::delivered::Delivered;
use crate::text::Text;
use draft::callers::index_calls;
use draft::examine::examine;
use draft::question::{Breach, Refusal};
use listing::counts::Counts;
use listing::program::Program;

// Point n is line n + 2. No `From`: the place is this make's, and both types are the crate's below.
fn at_line(breach: Breach) -> Refusal
    ensures { result ≡ on_line breach }
{
    Refusal {
        question: breach.question,
        place: usize::from(breach.point.0) + 2,
    }
}

impl<'a> Text<'a> {
    // The shortest listing: what a caller holds before the first reading.
    pub fn shortest() -> Text<'a>
        ensures { bytes_of result ≡ listed (codes "cells 0 1" ∷ codes "ret l0" ∷ []) }
    {
        Text::of(b"cells 0 1\nret l0\n").unwrap()
    }

    // Reads a file: its text, or the first no.
    pub fn of(bytes: &'a [u8]) -> Result<Text<'a>, Refusal>
        ensures reads { MatchResult result (λ text. (reading bytes.now ≡ Ok (meaning_of bytes.now)) × (bytes_of text ≡ bytes.now)) (λ e. reading bytes.now ≡ Err e) }
        ensures law { ReadsByLaw bytes.now result }
    {
        let delivered = Delivered::of(bytes)?;
        let procedures = examine(&delivered).map_err(at_line)?;
        let callers = index_calls(&delivered);
        Ok(Text {
            delivered,
            procedures,
            callers,
        })
    }

    // Reads a file over this text: its counts, and this text is then that file's, or the first no, and this text is as it
    // was.
    pub fn read(&mut self, bytes: &'a [u8]) -> Result<Counts, Refusal>
        ensures value { result ≡ answered (refused bytes.now) (totals (meaning_of bytes.now)) }
        ensures reads { MatchResult result (λ _. (reading bytes.now ≡ Ok (meaning_of bytes.now)) × (bytes_of self.new ≡ bytes.now)) (λ e. (reading bytes.now ≡ Err e) × (self.new ≡ self.old)) }
        ensures law { ReadsByLaw bytes.now result }
    {
        let text = Text::of(bytes)?;
        let counts = text.counts();
        *self = text;
        Ok(counts)
    }
}
