// The texts of a page, made on the stack.
ghost use Rattle.std.specs.Prelude.{◌≡◌, ◌+◌, ◌≤◌, ◌++◌, [], ◌∷◌, length};
ghost use Rattle.arrayvec.specs.ArrayString.{array_string_len};
ghost use Rattle.listing.specs.Refusals.{refused_text};
ghost use Rattle.page.specs.Writes.{item, phrase, heading};
ghost use Rattle.paths.specs.Page.{line_text, foot_text};

use arrayvec::ArrayString;
use listing::numbers::{Fact, Point};
use listing::refused::Refused;

// The bytes of the longest text, two numbers of twenty digits and a text before each.
const LONGEST: usize = 54;

// A text that is made on the stack.
pub(crate) type Text = ArrayString<LONGEST>;

// Writes a text and then a number in decimal behind a line.
fn push_item(line: &mut Text, text: &str, number: u64)
    requires { array_string_len line.old + length text.now + 20 ≤ LONGEST }
    ensures written { line.new.bytes ≡ line.old.bytes ++ item text.now number }
    ensures short { array_string_len line.new ≤ array_string_len line.old + length text.now + 20 }
{
    line.push_str(text);
    line.push_str(itoa::Buffer::new().format(number));
}

// Two numbers in decimal, a text before each, and LF. Tried with `write!`: its contract says what was written where it ends
// well, and not that it does where there is room, so its error cannot be ruled out.
fn phrase(before: &str, first: u64, between: &str, second: u64) -> Text
    requires { length before.now + length between.now ≤ 13 }
    ensures { result.bytes ≡ phrase before.now first between.now second }
{
    let mut line = ArrayString::new();
    push_item(&mut line, before, first);
    push_item(&mut line, between, second);
    line.push('\n');
    line
}

// A line, `POINT FACT`.
pub(crate) fn line(point: Point, fact: Fact) -> Text
    ensures { result.bytes ≡ line_text (point.0, fact.0) }
{
    phrase("", u64::from(point.0), " ", u64::from(fact.0))
}

// A foot, `pairs R cells C`.
pub(crate) fn foot(pairs: u32, cells: u32) -> Text
    ensures { result.bytes ≡ foot_text pairs cells }
{
    phrase("pairs ", u64::from(pairs), " cells ", u64::from(cells))
}

// A heading, `problem K`.
pub(crate) fn heading(problem: u8) -> Text
    ensures { result.bytes ≡ heading problem }
{
    let mut line = ArrayString::new();
    push_item(&mut line, "problem ", u64::from(problem));
    line.push('\n');
    line
}

// A refusal in a line, `refused K at J`.
pub(crate) fn refusal(refused: Refused) -> Text
    ensures { result.bytes ≡ refused_text refused.number refused.place ++ (10 ∷ []) }
{
    phrase(
        "refused ",
        u64::from(refused.number),
        " at ",
        refused.place as u64,
    )
}
