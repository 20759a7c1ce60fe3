// The facts of which something holds, asked one by one.
ghost use Rattle.std.specs.Prelude.{◌≡◌, ℕ, Bool, ◌≤◌, ◌&&◌, ◌==◌, nat_lt};
ghost use Rattle.fact_set.specs.Sets.{has};
ghost use Rattle.listing.specs.declared.numbers.Fact.{Fact};

use fact_set::FactSet;
use listing::numbers::Fact;

// A fact alone, if it holds and is below 64; otherwise none.
fn only_if(holds: bool, fact: Fact) -> FactSet
    ensures { (e : ℕ) → has result e ≡ (holds && (nat_lt e 64 && e == fact.0)) }
{
    if holds {
        FactSet::only(fact)
    } else {
        FactSet::empty()
    }
}

// The facts below a count of which a test holds.
pub(crate) fn facts_where<F: Fn(Fact) -> bool>(count: u8, test: F) -> FactSet
    requires few { count ≤ 64 }
    requires callable { F.IsAlwaysCallable test }
    ensures { (holds : ℕ → Bool) → ((d : Fact) (b : Bool) → F.post test d b → b ≡ holds d.0) → (e : ℕ) → has result e ≡ (nat_lt e count && holds e) }
{
    let mut facts = FactSet::empty();
    for d in 0..count {
        let d = Fact(d);
        facts = facts.union(only_if(test(d), d));
    }
    facts
}
