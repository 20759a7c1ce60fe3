// Problem 1: which cells may be unset.
ghost use Rattle.flow.specs.Unset.{unset_transfer};
ghost use Rattle.flow.specs.declared.origin.Origin.TheVariants.{Zero};

use crate::edge::Edge;
use crate::origin::{Origin, Transfer};
use crate::rule::CellRule;
use listing::statement::Statement;

// Fact c + 1 says that cell c may be unset.
#[derive(Clone, Copy)]
pub struct Unset;

impl CellRule for Unset {
    const NUMBER: u8 = 1;

    ghost NUMBER = { 1 };

    ghost transfers = { unset_transfer };

    ghost other_locals = { Zero };

    ghost starting_facts = { λ facts. facts };

    fn transfer(&self, edge: Edge) -> Option<Transfer> {
        let Edge::Step { statement, .. } = edge else {
            return None;
        };
        let (to, from) = match statement {
            Statement::Set { to } | Statement::Read { to } => (to, Origin::Nothing),
            Statement::Move { to, from } | Statement::Trim { to, from } => (to, Origin::One(from)),
            Statement::Add { to, left, right } => (to, Origin::Two(left, right)),
            _ => return None,
        };
        Some(Transfer { to, from })
    }

    fn other_locals(&self) -> Origin {
        Origin::Zero
    }

    // Every fact.
    fn starting_facts(&self, facts: u8) -> u8 {
        facts
    }
}
