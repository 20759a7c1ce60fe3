// Words of a line.
ghost use Rattle.std.specs.Prelude.{◌≡◌, ◌==◌, ℕ, List, Option};
ghost use Rattle.std.specs.List.{position};
ghost use Rattle.grammar.specs.Words.{followed, short, number, name};

use crate::name::Name;

const SPACE: u8 = b' ';

// The index of the first space, or none.
pub(crate) fn space(line: &[u8]) -> Option<usize>
    ensures { result ≡ position (λ b. b == 32) line.now }
{
    line.iter().position(|byte| *byte == SPACE)
}

// What one word of a line spells.
pub(crate) trait Operand: Copy {
    ghost reads: { List ℕ → Option Self };

    fn read(word: &[u8]) -> Option<Self>
        ensures { result ≡ reads word.now };
}

// One to four bytes, the first of them `0` only where it is the only one.
fn is_short(word: &[u8]) -> bool
    ensures { result ≡ short word.now }
{
    match word {
        [] | [b'0', _, ..] => false,
        _ => word.len() <= 4,
    }
}

// A number with one more digit behind it, or none where the byte is no digit. Up to four digits nothing wraps.
fn with_digit(number: Option<u16>, byte: &u8) -> Option<u16>
    ensures { result ≡ followed number byte.now }
{
    if !byte.is_ascii_digit() {
        return None;
    }
    let number = number?;
    Some(number.wrapping_mul(10).wrapping_add(u16::from(byte - b'0')))
}

// One to four digits, no leading zero but in `0`.
impl Operand for u16 {
    ghost reads = { number };

    fn read(word: &[u8]) -> Option<u16> {
        if !is_short(word) {
            return None;
        }
        word.iter().fold(Some(0), with_digit)
    }
}

// A letter, and a number.
impl Operand for Name {
    ghost reads = { name };

    fn read(word: &[u8]) -> Option<Name> {
        let [letter, digits @ ..] = word else {
            return None;
        };
        let number = u16::read(digits)?;
        match char::from(*letter) {
            'g' => Some(Name::Global(number)),
            'l' => Some(Name::Local(number)),
            _ => None,
        }
    }
}
