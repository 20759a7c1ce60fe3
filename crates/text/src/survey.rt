// The first four questions, and where the lines begin.
ghost use Rattle.std.specs.Prelude.{◌≡◌, ℕ, ◌+◌, ◌<◌, ◌≤◌, length, Some, None, MatchResult};
ghost use Rattle.listing.specs.Lawful.{points_in_range};
ghost use Rattle.text.specs.Lines.{lines};
ghost use Rattle.text.specs.Reading.{counted, sized, formed, misformed, refused};
ghost use Rattle.text.specs.Survey.{Placed, Surveyed};
ghost use Rattle.draft.specs.declared.question.Question.TheVariants.{Form};

use crate::cells::counts_in;
use crate::delivered::Delivered;
use crate::scan::line_at;
use draft::question::{Question, Refusal};
use grammar::line::{LF, header_of, statement_of};
use grammar::name::Header;

// As many bytes as an accepted text has at most.
pub(crate) const MOST_BYTES: usize = 32768;

// As many lines as an accepted text has at most.
pub(crate) const MOST_LINES: usize = 1001;

// Where the first lines begin, and how many lines there are: an array of a fixed length, since reading allocates nothing.
#[derive(Clone, Copy)]
pub(crate) struct Places {
    pub starts: [u16; MOST_LINES],
    pub count: usize,
}

// Line 1 has a form of its own, by the rules of the listing.
fn has_form(n: usize, line: &[u8]) -> bool
    ensures { result ≡ formed n line.now }
{
    if n == 1 {
        header_of(line).is_some()
    } else {
        statement_of(line).is_some()
    }
}

// G and L of line 1.
fn counts_of(bytes: &[u8]) -> Header
    requires { 0 < length bytes.now }
    ensures { result ≡ counted bytes.now }
{
    header_of(line_at(bytes, 0)).unwrap_or_default()
}

// The places of the lines, or the no to the first that has not its form.
fn find_lines(bytes: &[u8]) -> Result<Places, Refusal>
    requires { length bytes.now ≤ 32768 }
    ensures { MatchResult result
        (λ ps. Placed bytes.now ps × (misformed bytes.now ≡ None))
        (λ e. (misformed bytes.now ≡ Some e.place) × (e.question ≡ Form)) }
{
    let mut starts = [0; MOST_LINES];
    // Both are kept by hand: they are wanted after the line, and the count after the loop, where `enumerate` has no number to give.
    let mut count = 0;
    let mut at = 0;
    for line in bytes.split_inclusive(|byte| *byte == LF) {
        if !has_form(count + 1, line) {
            return Err(Refusal {
                question: Question::Form,
                place: count + 1,
            });
        }
        if count < MOST_LINES {
            starts[count] = at as u16;
        }
        at += line.len();
        count += 1;
    }
    Ok(Places { starts, count })
}

fn fits(bytes: &[u8]) -> bool
    ensures { result ≡ sized bytes.now }
{
    (1..=MOST_BYTES).contains(&bytes.len())
}

fn in_range(points: usize) -> bool
    ensures { result ≡ points_in_range points }
{
    (1..MOST_LINES).contains(&points)
}

impl<'a> Delivered<'a> {
    // The text of a file to which the first four questions have no no, or their first no.
    pub(crate) fn of(bytes: &'a [u8]) -> Result<Delivered<'a>, Refusal>
        ensures { MatchResult result (λ d. (d.bytes.now ≡ bytes.now) × Surveyed d.bytes.now) (λ e. refused bytes.now ≡ Some e) }
    {
        if !fits(bytes) {
            return Err(Refusal {
                question: Question::Size,
                place: 0,
            });
        }
        let Places { starts, count } = find_lines(bytes)?;
        let cells = counts_in(counts_of(bytes)).ok_or(Refusal {
            question: Question::Ranges,
            place: 1,
        })?;
        let points = count.saturating_sub(1);
        if !in_range(points) {
            return Err(Refusal {
                question: Question::Length,
                place: 0,
            });
        }
        Ok(Delivered {
            bytes,
            starts,
            points: points as u16,
            cells,
        })
    }
}
