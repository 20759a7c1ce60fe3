// A problem, by its count of facts and the relation between them.
ghost use Rattle.std.specs.Prelude.{◌≡◌, ℕ, Bool, true, List, Option};
ghost use Rattle.std.specs.List.{slice_get};
ghost use Rattle.fact_set.specs.Sets.{has};
ghost use Rattle.flow.specs.declared.interface.Start.{Start};
ghost use Rattle.flow.specs.Relation.{Rule, Few, Within, KeepsZero};

use crate::edge::Edge;
use crate::gathering::facts_where;
use crate::worded::Worded;
use fact_set::FactSet;
use listing::numbers::{Fact, Proc};

// The entry of a procedure with a fact.
#[derive(Clone, Copy, PartialEq, Eq, Debug)]
pub struct Start {
    pub procedure: Proc,
    pub fact: Fact,
}

// Any relation between facts from 0 to F - 1 over the edges that there are. Who writes a problem says F, the relation, what a fact stands for and
// the default starts; the sets of facts have a body here, for a problem that has no shorter way to them.
pub trait Problem {
    // what a fact's number stands for: it tells itself in words
    type Item: Worded + Drop;

    // the problem's own number
    const NUMBER: u8;

    ghost NUMBER: { ℕ };

    ghost count: { Self → ℕ };

    ghost relation: { Self → Rule };

    ghost stands: { Self → ℕ → Option Self.Item };

    ghost starts: { Self → List Start };

    // the mark of problems in which zero follows from zero alone, and which may so be joined
    ghost joinable: { Bool };

    // F
    fn facts(&self) -> u8
        ensures { result ≡ count self.now };

    // What a fact stands for, if anything.
    fn item(&self, d: Fact) -> Option<Self::Item>
        ensures { result ≡ stands self.now d.0 };

    // The default start of a number from 0 on, or none past the last.
    fn start(&self, i: u8) -> Option<Start>
        ensures { result ≡ slice_get (starts self.now) i };

    // Whether fact e follows from fact d over an edge.
    fn follows(&self, edge: Edge, d: Fact, e: Fact) -> bool
        ensures { result ≡ relation self.now edge d.0 e.0 };

    // The facts that follow from a fact over an edge: here each fact is asked.
    fn targets(&self, edge: Edge, d: Fact) -> FactSet
        ensures { (e : ℕ) → has result e ≡ relation self.now edge d.0 e }
    {
        let follows = |onto: Fact| -> bool
            ensures { result ≡ relation self.entry.now edge d.0 onto.0 }
        { self.follows(edge, d, onto) };
        facts_where(self.facts(), follows)
    }

    // The facts from which a fact follows over an edge: here each fact is asked.
    fn sources(&self, edge: Edge, e: Fact) -> FactSet
        ensures { (d : ℕ) → has result d ≡ relation self.now edge d e.0 }
    {
        let leads = |from: Fact| -> bool
            ensures { result ≡ relation self.entry.now edge from.0 e.0 }
        { self.follows(edge, from, e) };
        facts_where(self.facts(), leads)
    }

    ghost few: { (q : Self) → Few (count q) };

    ghost within: { (q : Self) → Within (count q) (relation q) };

    ghost zero: { joinable ≡ true → (q : Self) → KeepsZero (relation q) };
}
