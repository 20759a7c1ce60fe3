// Cells by their numbers, and finding one.
ghost use Rattle.std.specs.Prelude.{◌≡◌, ℕ, ◌+◌, ◌*◌, ◌<◌, ◌≤◌, ◌&&◌, ◌||◌, ◌==◌, nat_lt, true, false, vec_len};
ghost use Rattle.fact_set.specs.Sets.{has};
ghost use Rattle.paths.specs.Tabled.{cell_at, find, is_found};
ghost use Rattle.table.specs.Leads.{kind_of, first_of, second_of};
ghost use Rattle.table.specs.Records.{at, entered, marked};
ghost use Rattle.table.specs.State.{inner, cell_of, block_of, Inside, Found, Led, Kept};

use crate::sites::{Lead, Spot};
use crate::state::Core;
use fact_set::FactSet;
use listing::numbers::{Fact, Point};
use records::record::Record;

// Writes a found cell, and its number into a slot.
fn enter(records: &mut Vec<Record>, cell: u32, rank: u32, by: Lead, tail: u32)
    requires { (cell < vec_len records.old) × (tail < vec_len records.old) }
    ensures { records.new.items ≡ entered records.old.items cell rank (kind_of by) (first_of by) (second_of by) tail }
{
    let at = cell as usize;
    let Record { slot, found, .. } = records[at];
    records[at] = Record {
        rank,
        kind: Some(by.kind()),
        first: by.first(),
        second: by.second(),
        slot,
        found,
    };
    records[tail as usize].slot = cell;
}

// Writes down that the cell of a block with a fact is found.
fn mark(records: &mut Vec<Record>, block: u32, fact: Fact)
    requires { block < vec_len records.old }
    ensures marked { records.new.items ≡ marked records.old.items block (at records.new.items block).found }
    ensures found { (e : ℕ) → has (at records.new.items block).found e ≡ (has (at records.old.items block).found e || (nat_lt e 64 && e == fact.0)) }
{
    let at = block as usize;
    records[at].found = records[at].found.union(FactSet::only(fact));
}

impl Core {
    // The number of the block of a point under an origin.
    pub(super) fn block(&self, point: Point, origin: Fact) -> u32
        ensures value { result ≡ block_of self.now.facts point.0 origin.0 }
        ensures within { point.0 < self.now.points → origin.0 < self.now.facts → result < self.now.points * self.now.facts }
    {
        u32::from(point.0) * u32::from(self.facts) + u32::from(origin.0)
    }

    // The number of the cell of a block with a fact.
    pub(super) fn cell(&self, block: u32, fact: Fact) -> u32
        requires { block < self.now.points * self.now.facts }
        ensures value { result ≡ block * self.now.facts + fact.0 }
        ensures within { fact.0 < self.now.facts → result < self.now.size }
    {
        block * u32::from(self.facts) + u32::from(fact.0)
    }

    // The facts of a block whose cells are found.
    pub(super) fn found_in(&self, block: u32) -> FactSet
        requires { block < self.now.points * self.now.facts }
        ensures { (e : ℕ) → has result e ≡ (nat_lt e self.now.facts && is_found (block * self.now.facts + e) (inner self.now)) }
    {
        self.records[block as usize].found
    }

    // The cell that has a number.
    pub(super) fn spot(&self, cell: u32) -> Spot
        requires { cell < self.now.size }
        ensures value { cell_of result ≡ cell_at self.now.facts cell }
        ensures inside { Inside self.now result }
    {
        let facts = u32::from(self.facts);
        let rest = cell / facts;
        Spot {
            point: Point((rest / facts) as u16),
            origin: Fact((rest % facts) as u8),
            fact: Fact((cell % facts) as u8),
        }
    }

    // Whether a cell is found.
    pub(super) fn is_found(&self, cell: u32) -> bool
        requires { cell < self.now.size }
        ensures value { result ≡ is_found cell (inner self.now) }
        ensures found { result ≡ true → Found self.now cell }
    {
        self.records[cell as usize].rank > 0
    }

    // The rank of the cell that is found next. The body does not read the cell: it is handed over for the contract, as a cell that is not
    // found is what shows that fewer are found than the table has, so that the sum is in bounds.
    fn next_rank(&self, cell: u32) -> u32
        requires within { cell < self.now.size }
        requires unfound { is_found cell (inner self.now) ≡ false }
        ensures { result ≡ self.now.found + 1 }
    {
        self.found + 1
    }

    // Notes the cell of a block with a fact as found, with the next rank; it waits last.
    fn note(&mut self, block: u32, fact: Fact, rank: u32, by: Lead)
        requires block { block < self.old.points * self.old.facts }
        requires fact { fact.0 < self.old.facts }
        requires unfound { is_found (block * self.old.facts + fact.0) (inner self.old) ≡ false }
        requires rank { rank ≡ self.old.found + 1 }
        requires led { Led self.old by }
        ensures kept { Kept self.old self.new }
        ensures after { inner self.new ≡ find (kind_of by) (first_of by) (second_of by) (block * self.old.facts + fact.0) (inner self.old) }
    {
        let cell = self.cell(block, fact);
        let tail = self.tail;
        enter(&mut self.records, cell, rank, by, tail);
        mark(&mut self.records, block, fact);
        self.found = rank;
        self.tail = tail + 1;
    }

    // Finds the cell of a block with a fact, unless it was found before. The block tells that, so that the cell's own record is not read.
    pub(super) fn find(&mut self, block: u32, fact: Fact, by: Lead)
        requires block { block < self.old.points * self.old.facts }
        requires fact { fact.0 < self.old.facts }
        requires led { Led self.old by }
        ensures kept { Kept self.old self.new }
        ensures after { inner self.new ≡ find (kind_of by) (first_of by) (second_of by) (block * self.old.facts + fact.0) (inner self.old) }
    {
        if self.found_in(block).has(fact) {
            return;
        }
        let rank = self.next_rank(self.cell(block, fact));
        self.note(block, fact, rank, by);
    }
}
