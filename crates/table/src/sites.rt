// The parts that settling hands on.
ghost use Rattle.std.specs.Prelude.{◌≡◌};
ghost use Rattle.table.specs.Leads.{kind_of, first_of, second_of};

use flow::edge::Edge;
use listing::numbers::{Cell, Fact, Point};
use listing::statement::Statement;
use moves::moves::Kind;

// A cell: a point, the fact with which its procedure was entered, and a fact.
#[derive(Clone, Copy)]
pub(crate) struct Spot {
    pub point: Point,
    pub origin: Fact,
    pub fact: Fact,
}

// A move to a cell, with the numbers of the cells from which it comes. A number is a plain u32, as a record, whose format is a rule, keeps
// it; that it is below a table's size is a fact of that table too, and none of the number alone.
#[derive(Clone, Copy)]
pub(crate) enum Lead {
    Start,
    Step { from: u32 },
    Past { from: u32 },
    Call { from: u32 },
    Return { call: u32, exit: u32 },
}

impl Lead {
    pub fn kind(self) -> Kind
        ensures { result ≡ kind_of self }
    {
        match self {
            Lead::Start => Kind::Start,
            Lead::Step { .. } => Kind::Step,
            Lead::Past { .. } => Kind::Past,
            Lead::Call { .. } => Kind::Call,
            Lead::Return { .. } => Kind::Return,
        }
    }

    // The first cell as a record keeps it: 0 where there is none.
    pub fn first(self) -> u32
        ensures { result ≡ first_of self }
    {
        match self {
            Lead::Start => 0,
            Lead::Step { from } | Lead::Past { from } | Lead::Call { from } => from,
            Lead::Return { call, .. } => call,
        }
    }

    // The second cell as a record keeps it: 0 where there is none.
    pub fn second(self) -> u32
        ensures { result ≡ second_of self }
    {
        match self {
            Lead::Return { exit, .. } => exit,
            _ => 0,
        }
    }
}

// A fact that crosses an edge, and the move by which what follows from it is found.
#[derive(Clone, Copy)]
pub(crate) struct Crossing {
    pub edge: Edge,
    pub from: Fact,
    pub by: Lead,
}

// A cell that is being settled, with its number and the statement at its point.
#[derive(Clone, Copy)]
pub(crate) struct Site {
    pub spot: Spot,
    pub cell: u32,
    pub statement: Statement<Cell>,
}

// A procedure that is called: where it is entered and left, and the cell that it returns.
#[derive(Clone, Copy)]
pub(crate) struct Callee {
    pub entry: Point,
    pub exit: Point,
    pub result: Cell,
}

// A call that is being settled.
#[derive(Clone, Copy)]
pub(crate) struct CallSite {
    pub site: Site,
    pub callee: Callee,
}

// A call to which a procedure returns, and the cell that is returned.
#[derive(Clone, Copy)]
pub(crate) struct Caller {
    pub at: Point,
    pub statement: Statement<Cell>,
    pub result: Cell,
}

// A procedure's exit that is being settled, and a call to which it returns.
#[derive(Clone, Copy)]
pub(crate) struct ReturnSite {
    pub exit: Site,
    pub caller: Caller,
}
