// Problem 2: which cells may hold a raw reading.
ghost use Rattle.flow.specs.Raw.{raw_transfer};
ghost use Rattle.flow.specs.declared.origin.Origin.TheVariants.{Nothing};

use crate::edge::Edge;
use crate::origin::{Origin, Transfer};
use crate::rule::CellRule;
use listing::statement::Statement;

// Fact c + 1 says that cell c may hold a raw reading.
#[derive(Clone, Copy)]
pub struct Raw;

impl CellRule for Raw {
    const NUMBER: u8 = 2;

    ghost NUMBER = { 2 };

    ghost transfers = { raw_transfer };

    ghost other_locals = { Nothing };

    ghost starting_facts = { λ _. 1 };

    fn transfer(&self, edge: Edge) -> Option<Transfer> {
        let Edge::Step { statement, .. } = edge else {
            return None;
        };
        let (to, from) = match statement {
            Statement::Set { to } | Statement::Trim { to, .. } => (to, Origin::Nothing),
            Statement::Read { to } => (to, Origin::Zero),
            Statement::Move { to, from } => (to, Origin::One(from)),
            Statement::Add { to, left, right } => (to, Origin::Two(left, right)),
            _ => return None,
        };
        Some(Transfer { to, from })
    }

    fn other_locals(&self) -> Origin {
        Origin::Nothing
    }

    // Zero alone.
    fn starting_facts(&self, _facts: u8) -> u8 {
        1
    }
}
