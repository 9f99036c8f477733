// Multiples of rows of bytes, in loops that are turned into vector code.
#![tactic(auto)]

mod rows;

pub use rows::{quarters, row_by, row_times};
