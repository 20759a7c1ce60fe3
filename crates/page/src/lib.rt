// The lines and the foot of a report, a problem's heading and a refusal in a line: how many bytes each takes, and writing it at the front of
// a part of a page that is lent. Nothing is allocated, and no place is kept here.
#![tactic(auto)]

ghost use Rattle.std.specs.Prelude.{◌≡◌, ◌≤◌, ◌++◌, [], ◌∷◌, length};
ghost use Rattle.listing.specs.Refusals.{refused_text};
ghost use Rattle.paths.specs.Page.{line_text, foot_text};
ghost use Rattle.page.specs.Writes.{Writes, heading};

use listing::numbers::{Fact, Point};
use listing::refused::Refused;
use place::write_front;

mod place;
mod text;

// Writes a line, `POINT FACT`, and gives how many bytes it took; none where it does not fit, and then nothing is written.
pub fn write_line(part: &mut [u8], point: Point, fact: Fact) -> Option<usize>
    ensures { Writes (line_text (point.0, fact.0)) part.old result part.new }
{
    write_front(part, text::line(point, fact).as_str())
}

// How many bytes a line takes.
pub fn line_len(point: Point, fact: Fact) -> usize
    ensures value { result ≡ length (line_text (point.0, fact.0)) }
    ensures few { result ≤ 54 }
{
    text::line(point, fact).len()
}

// Writes the foot, `pairs R cells C`, and gives how many bytes it took; none where it does not fit, and then nothing is written.
pub fn write_foot(part: &mut [u8], pairs: u32, cells: u32) -> Option<usize>
    ensures { Writes (foot_text pairs cells) part.old result part.new }
{
    write_front(part, text::foot(pairs, cells).as_str())
}

// How many bytes the foot takes.
pub fn foot_len(pairs: u32, cells: u32) -> usize
    ensures value { result ≡ length (foot_text pairs cells) }
    ensures few { result ≤ 54 }
{
    text::foot(pairs, cells).len()
}

// Writes a problem's heading, `problem K`, and gives how many bytes it took; none where it does not fit, and then nothing is written.
pub fn write_heading(part: &mut [u8], problem: u8) -> Option<usize>
    ensures { Writes (heading problem) part.old result part.new }
{
    write_front(part, text::heading(problem).as_str())
}

// How many bytes a heading takes.
pub fn heading_len(problem: u8) -> usize
    ensures value { result ≡ length (heading problem) }
    ensures few { result ≤ 54 }
{
    text::heading(problem).len()
}

// Writes a refusal in a line, `refused K at J`, and gives how many bytes it took; none where it does not fit, and then nothing is written.
pub fn write_refusal(part: &mut [u8], refused: Refused) -> Option<usize>
    ensures { Writes (refused_text refused.number refused.place ++ (10 ∷ [])) part.old result part.new }
{
    write_front(part, text::refusal(refused).as_str())
}

// How many bytes a refusal in a line takes.
pub fn refusal_len(refused: Refused) -> usize
    ensures value { result ≡ length (refused_text refused.number refused.place ++ (10 ∷ [])) }
    ensures few { result ≤ 54 }
{
    text::refusal(refused).len()
}
