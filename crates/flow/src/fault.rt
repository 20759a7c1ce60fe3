// Why the counts of cells are not made.
pub use listing::cells::Fault;
