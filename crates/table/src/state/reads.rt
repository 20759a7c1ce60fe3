// What may be read of a table.
ghost use Rattle.std.specs.Prelude.{◌≡◌, ◌<◌, ◌≤◌, IfSome};
ghost use Rattle.paths.specs.Words.{least_found};
ghost use Rattle.table.specs.Records.{at};
ghost use Rattle.table.specs.State.{inner, state};
ghost use Rattle.table.specs.Told.{has_pair, least, Arrives};

use crate::arrival::Arrival;
use crate::state::{Core, Stage, Staged};
use listing::numbers::{Fact, Point};

impl Core {
    // The number of the found cell of a pair with the least origin, if any.
    fn least_found(&self, point: Point, fact: Fact) -> Option<u32>
        requires point { point.0 < self.now.points }
        requires fact { fact.0 < self.now.facts }
        ensures { result ≡ least_found self.now.facts point.0 fact.0 (inner self.now) }
    {
        let mut least = None;
        for a in 0..self.facts {
            let block = self.block(point, Fact(a));
            let cell = self.cell(block, fact);
            if least.is_none() && self.is_found(cell) {
                least = Some(cell);
            }
        }
        least
    }
}

impl<S: Stage> Staged<S> {
    // N
    pub fn points(&self) -> u16
        ensures value { result ≡ (state self.now).points }
        ensures few { result ≤ 1000 }
    {
        self.core.points
    }

    // F
    #[tactic(auto, using(crate::proofs::Pairs::some_facts))]
    pub fn facts(&self) -> u8
        ensures value { result ≡ (state self.now).facts }
        ensures some { 0 < result }
        ensures few { result ≤ 64 }
    {
        self.core.facts
    }

    // Whether a point is below N and a fact below F.
    pub fn has_pair(&self, point: Point, fact: Fact) -> bool
        ensures { result ≡ has_pair (state self.now) point.0 fact.0 }
    {
        point.0 < self.core.points && fact.0 < self.core.facts
    }

    // The number of the found cell of a pair with the least origin, if any.
    pub fn least(&self, point: Point, fact: Fact) -> Option<u32>
        ensures { result ≡ least (state self.now) point.0 fact.0 }
    {
        if self.has_pair(point, fact) {
            self.core.least_found(point, fact)
        } else {
            None
        }
    }

    // How a cell was found; none where the table has no cell of the number.
    pub fn arrival(&self, cell: u32) -> Option<Arrival>
        ensures arrives { Arrives (state self.now) cell result }
        ensures whole { IfSome result (λ a. a.«record» ≡ at self.now.core.records.items cell) }
    {
        if cell >= self.core.size {
            return None;
        }
        let spot = self.core.spot(cell);
        Some(Arrival {
            point: spot.point,
            fact: spot.fact,
            record: self.core.records[cell as usize],
        })
    }
}
