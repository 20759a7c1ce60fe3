// What sets one problem about cells apart from another.
ghost use Rattle.std.specs.Prelude.{◌≡◌, ℕ, Option};
ghost use Rattle.flow.specs.declared.edge.Edge.{Edge};
ghost use Rattle.flow.specs.declared.origin.Origin.{Origin};
ghost use Rattle.flow.specs.declared.origin.Transfer.{Transfer};

use crate::edge::Edge;
use crate::origin::{Origin, Transfer};

pub trait CellRule {
    // the problem's own number
    const NUMBER: u8;

    ghost NUMBER: { ℕ };

    ghost transfers: { Edge → Option Transfer };

    ghost other_locals: { Origin };

    ghost starting_facts: { ℕ → ℕ };

    // The cell whose fact does not stay its own over a step, if there is one, and where it comes from.
    fn transfer(&self, edge: Edge) -> Option<Transfer>
        ensures { result ≡ transfers edge };

    // Where the facts of a callee's locals come from, but for local 0, which gets the argument.
    fn other_locals(&self) -> Origin
        ensures { result ≡ other_locals };

    // With how many of all the facts, from zero on, procedure 0 starts by default.
    fn starting_facts(&self, facts: u8) -> u8
        ensures { result ≡ starting_facts facts };
}
