// Numbers that never stand for one another.

// The state before a statement, counted from 0.
#[derive(Clone, Copy, PartialEq, Eq, Debug)]
pub struct Point(pub u16);

// A fact of a problem; fact 0 is the zero fact.
#[derive(Clone, Copy, PartialEq, Eq, Debug)]
pub struct Fact(pub u8);

// A procedure, counted from 0.
#[derive(Clone, Copy, PartialEq, Eq, Debug)]
pub struct Proc(pub u16);

// A cell of a program with G globals: global i is cell i, local i is cell G + i.
#[derive(Clone, Copy, PartialEq, Eq, Debug)]
pub struct Cell(pub u8);
