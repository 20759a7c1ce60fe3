// A move as a word: from the top, 3 bits of kind, 10 of point, 6 of fact, and 13 zero bits.
ghost use Rattle.std.specs.Prelude.{◌≡◌, if◌then◌else◌, Some, None, ok_or};
ghost use Rattle.moves.specs.Words.{code, kind_of, encoded, fits, decode, ReadsMove};

use crate::moves::{Kind, Move};
use listing::numbers::{Fact, Point};

const LOW: u32 = 8192;

const FACTS: u32 = 64;

const POINTS: u32 = 1024;

// A number that is no kind's.
#[derive(Clone, Copy, PartialEq, Eq, Debug)]
pub struct NotAKind(pub u8);

// A word that is no move's.
#[derive(Clone, Copy, PartialEq, Eq, Debug)]
pub struct NotAMove(pub u32);

// A move that has no word, since its point or its fact has too many bits.
#[derive(Clone, Copy, PartialEq, Eq, Debug)]
pub struct NoWord(pub Move);

// The number of a kind, from 1.
impl From<Kind> for u8 {
    ghost from_gives = { λ kind number. number ≡ code kind };

    fn from(kind: Kind) -> u8 {
        match kind {
            Kind::Start => 1,
            Kind::Step => 2,
            Kind::Past => 3,
            Kind::Call => 4,
            Kind::Return => 5,
        }
    }
}

impl TryFrom<u8> for Kind {
    type Error = NotAKind;

    ghost try_from_gives = { λ number r. r ≡ ok_or (kind_of number) (record { 0 = number }) };

    fn try_from(number: u8) -> Result<Kind, NotAKind> {
        match number {
            1 => Ok(Kind::Start),
            2 => Ok(Kind::Step),
            3 => Ok(Kind::Past),
            4 => Ok(Kind::Call),
            5 => Ok(Kind::Return),
            _ => Err(NotAKind(number)),
        }
    }
}

// The word of a move.
impl TryFrom<Move> for u32 {
    type Error = NoWord;

    ghost try_from_gives = { λ m r. r ≡ ok_or (if fits m then Some (encoded m) else None) (record { 0 = m }) };

    fn try_from(m: Move) -> Result<u32, NoWord> {
        let point = u32::from(m.point.0);
        let fact = u32::from(m.fact.0);
        if point < POINTS && fact < FACTS {
            Ok(((u32::from(u8::from(m.kind)) * POINTS + point) * FACTS + fact) * LOW)
        } else {
            Err(NoWord(m))
        }
    }
}

// The move of a word.
impl TryFrom<u32> for Move {
    type Error = NotAMove;

    ghost try_from_gives = { ReadsMove };

    fn try_from(word: u32) -> Result<Move, NotAMove> {
        read(word).ok_or(NotAMove(word))
    }
}

fn read(word: u32) -> Option<Move>
    ensures { result ≡ decode word }
{
    if word % LOW != 0 {
        return None;
    }
    let rest = word / LOW;
    let fact = Fact((rest % FACTS) as u8);
    let rest = rest / FACTS;
    let point = Point((rest % POINTS) as u16);
    let kind = Kind::try_from((rest / POINTS) as u8).ok()?;
    Some(Move { kind, point, fact })
}
