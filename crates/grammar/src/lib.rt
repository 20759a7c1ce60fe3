// The text of one line: a parser, and the law that it reads exactly what a printer writes.
#![tactic(auto)]

mod cursor;
pub mod line;
pub mod name;
mod parse;
mod words;
