// The text make of a program: a file of lines, read or refused.
#![tactic(auto)]

mod cells;
mod delivered;
pub mod input;
mod mapping;
mod scan;
mod survey;
pub mod tell;
pub mod text;
