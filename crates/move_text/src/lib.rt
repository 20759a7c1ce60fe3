// One move in words.
#![tactic(auto)]

ghost use Rattle.std.specs.Prelude.{◌≡◌, ◌-◌, ◌^◌, min, Some};
ghost use Rattle.move_text.specs.Lines.{item_text, line_text, opened};

use flow::worded::Worded;
use moves::moves::{Kind, Move};
use std::fmt;

// What a fact stands for, if anything. An option has no `Display` to give it, hence the struct.
#[derive(Drop)]
pub struct Item<I> {
    pub stands_for: Option<I>,
}

impl<I: Worded> fmt::Display for Item<I> {
    ghost output = { λ i. Some (item_text I.text i.stands_for) };

    fn fmt<W: fmt::Write>(&self, f: &mut fmt::Formatter<W>) -> fmt::Result {
        match &self.stands_for {
            Some(item) => write!(f, "{item}"),
            None => write!(f, "zero"),
        }
    }
}

// A move, what its fact stands for, and how many calls are open after it.
#[derive(Drop)]
pub struct MoveLine<I> {
    pub arriving: Move,
    pub item: Item<I>,
    pub height: usize,
}

impl<I: Worded> fmt::Display for MoveLine<I> {
    ghost output = { λ l. Some (line_text I.text l) };

    fn fmt<W: fmt::Write>(&self, f: &mut fmt::Formatter<W>) -> fmt::Result {
        let Move { kind, point, fact } = self.arriving;
        write!(
            f,
            "{kind} point {} fact {} {} open {}",
            point.0, fact.0, self.item, self.height
        )
    }
}

// How many calls are open after a move. A count at its end stays there: no memory holds so many moves.
pub fn open_after(height: usize, kind: Kind) -> usize
    ensures { result ≡ min (opened height kind) (2 ^ 64 - 1) }
{
    match kind {
        Kind::Call => height.saturating_add(1),
        Kind::Return => height.saturating_sub(1),
        _ => height,
    }
}
