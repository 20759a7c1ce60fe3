// Sets of facts, each a number of 64 bits: bit e says whether fact e is in.
#![tactic(auto)]

ghost use Rattle.std.specs.Prelude.{◌≡◌, ℕ, not, ◌&&◌, ◌||◌, ◌==◌, false, nat_le, nat_lt};
ghost use Rattle.fact_set.specs.Sets.{has, none, IsFirst};

use listing::numbers::Fact;

// Facts below 64.
#[derive(Clone, Copy, PartialEq, Eq, Debug)]
pub struct FactSet(pub u64);

impl FactSet {
    pub fn empty() -> FactSet
        ensures value { result ≡ none }
        ensures has { (e : ℕ) → has result e ≡ false }
    {
        FactSet(0)
    }

    // The facts below a count.
    #[tactic(auto, using(crate::proofs::Sets::below_has, crate::proofs::Sets::all_has))]
    pub fn below(count: u8) -> FactSet
        ensures { (e : ℕ) → has result e ≡ (nat_lt e 64 && nat_lt e count) }
    {
        if count < 64 {
            FactSet((1 << count) - 1)
        } else {
            FactSet(u64::MAX)
        }
    }

    // A fact alone, if it is below 64.
    #[tactic(auto, using(crate::proofs::Sets::only_has, crate::proofs::Sets::only_none))]
    pub fn only(fact: Fact) -> FactSet
        ensures { (e : ℕ) → has result e ≡ (nat_lt e 64 && e == fact.0) }
    {
        if fact.0 < 64 {
            FactSet(1 << fact.0)
        } else {
            FactSet::empty()
        }
    }

    pub fn has(self, fact: Fact) -> bool
        ensures { result ≡ has self fact.0 }
    {
        fact.0 < 64 && (self.0 >> fact.0) & 1 == 1
    }

    #[tactic(auto, using(crate::proofs::Sets::or_has))]
    pub fn union(self, other: FactSet) -> FactSet
        ensures { (e : ℕ) → has result e ≡ (has self e || has other e) }
    {
        FactSet(self.0 | other.0)
    }

    #[tactic(auto, using(crate::proofs::Sets::and_has))]
    pub fn intersection(self, other: FactSet) -> FactSet
        ensures { (e : ℕ) → has result e ≡ (has self e && has other e) }
    {
        FactSet(self.0 & other.0)
    }

    // The facts in this set and not in the other.
    #[tactic(auto, using(crate::proofs::Sets::minus_has))]
    pub fn difference(self, other: FactSet) -> FactSet
        ensures { (e : ℕ) → has result e ≡ (has self e && not (has other e)) }
    {
        FactSet(self.0 & !other.0)
    }

    // The facts of the set from a number on.
    #[tactic(auto, using(crate::proofs::Sets::beyond))]
    pub fn from(self, least: u8) -> FactSet
        ensures { (e : ℕ) → has result e ≡ (has self e && nat_le least e) }
    {
        self.difference(FactSet::below(least))
    }

    // The least fact of the set, if it has one.
    #[tactic(auto, using(crate::proofs::Sets::first_has))]
    pub fn first(self) -> Option<Fact>
        ensures { IsFirst self result }
    {
        if self.0 == 0 {
            return None;
        }
        Some(Fact(self.0.trailing_zeros() as u8))
    }
}
