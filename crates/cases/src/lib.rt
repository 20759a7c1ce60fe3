// Worked cases, computed from the definitions that the contracts cite.
#![tactic(auto)]

ghost use Rattle.std.specs.Prelude.{◌≡◌, map};
ghost use Rattle.cases.specs.Worked.{Worked, answer_to, first_six, told};

use draft::question::Refusal;
use listing::counts::Counts;
use text::text::Text;

// What the reader answers of a listing.
fn answer(bytes: &[u8]) -> Result<Counts, Refusal>
    ensures { result ≡ answer_to bytes.now }
{
    let mut text = Text::shortest();
    text.read(bytes)
}

// The reader's answers to six listings.
pub fn readings() -> [Result<Counts, Refusal>; 6]
    ensures of { result ≡ map answer_to first_six }
    ensures told { result ≡ told }
{
    [
        answer(b""),
        answer(b"cells 0 1\nret l0\n"),
        answer(b"cells 0 0\nret l0\n"),
        answer(b"cells 1 1\nadd l0 g0 l0\nret l0"),
        answer(b"cells 0 1\ngoto 1\nret l0\nret l0\n"),
        answer(b"cells 0 1\ngoto 2\nret l0\nret l0\n"),
    ]
}

// The worked cases, all in one statement.
pub fn worked()
    ensures { Worked }
{}
