// The table at its stages, open and closed. It owns the memory of its records.
ghost use Rattle.std.specs.Prelude.{◌≡◌, Bool, false, ℕ, ◌+◌, ◌*◌, ◌<◌, ◌≤◌, ◌&&◌, nat_lt, true, length, take};
ghost use Rattle.fact_set.specs.Sets.{has};
ghost use Rattle.table.specs.Records.{at, holders, leans_first, leans_second};

use records::record::Record;
use std::marker::PhantomData;

mod calls;
mod finding;
mod opening;
mod reads;
mod returns;
mod settling;
mod spreading;
mod steps;
mod working;
mod worklist;

pub use self::opening::records_for;

// What the stages share: a record for each cell, how many are found, and the row of those that wait, whose numbers lie in the
// slots from `head` to `tail`, the oldest first. The row is no `VecDeque`: a table has the one memory that it is handed, and its calls
// allocate nothing.
#[derive(Drop)]
pub struct Core {
    records: Vec<Record>,
    points: u16,
    facts: u8,
    size: u32,
    found: u32,
    head: u32,
    tail: u32,
    ghost few_points: { points ≤ 1000 },
    ghost few_facts: { facts ≤ 64 },
    ghost product: { size ≡ points * facts * facts },
    ghost some: { 0 < size },
    ghost held: { size ≤ length records.items },
    // as many records have no rank as cells are not found
    ghost counted: { found + holders 0 (take size records.items) ≡ size },
    // the ranks are 1 to the number found, each once
    ghost ranks: { (c : ℕ) → c < size → (at records.items c).rank ≤ found },
    ghost once: { (r : ℕ) → 0 < r → r ≤ found → holders r (take size records.items) ≡ 1 },
    // the cells that a record names are cells of the table
    ghost firsts: { (c : ℕ) → c < size → (at records.items c).first < size },
    ghost seconds: { (c : ℕ) → c < size → (at records.items c).second < size },
    // and those by which it was found were found before it
    ghost first_found: { (c : ℕ) → c < size → leans_first (at records.items c).kind ≡ true → 0 < (at records.items (at records.items c).first).rank },
    ghost first_before: { (c : ℕ) → c < size → leans_first (at records.items c).kind ≡ true → (at records.items (at records.items c).first).rank < (at records.items c).rank },
    ghost second_found: { (c : ℕ) → c < size → leans_second (at records.items c).kind ≡ true → 0 < (at records.items (at records.items c).second).rank },
    ghost second_before: { (c : ℕ) → c < size → leans_second (at records.items c).kind ≡ true → (at records.items (at records.items c).second).rank < (at records.items c).rank },
    // the cells (n, a, 0) to (n, a, F - 1) are block n × F + a, and the record of that number has the facts of those that are found
    ghost blocks: { (b : ℕ) (e : ℕ) → b < points * facts → has (at records.items b).found e ≡ (nat_lt e facts && nat_lt 0 (at records.items (b * facts + e)).rank) },
    // the row
    ghost ordered: { head ≤ tail },
    ghost pushed: { tail ≤ found },
    ghost slots: { (k : ℕ) → k < size → (at records.items k).slot < size },
    ghost waits: { (k : ℕ) → head ≤ k → k < tail → 0 < (at records.items (at records.items k).slot).rank },
}

// Whether a table is closed, as its type says.
pub trait Stage {
    ghost closed: { Bool };
}

#[derive(Clone, Copy)]
pub struct Open;

impl Stage for Open {
    ghost closed = { false };
}

#[derive(Clone, Copy)]
pub struct Closed;

impl Stage for Closed {
    ghost closed = { true };
}

// A table at a stage: open, or closed, where nothing waits.
#[derive(Drop)]
pub struct Staged<S: Stage> {
    core: Core,
    stage: PhantomData<S>,
    ghost settled: { S.closed ≡ true → core.head ≡ core.tail },
}

pub type OpenTable = Staged<Open>;

pub type ClosedTable = Staged<Closed>;
