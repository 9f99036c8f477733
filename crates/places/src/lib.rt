// Where the symbols of a codeword stand in the receiver's rows, and which of them are known.
#![tactic(auto)]

mod known;
mod starts;

pub use starts::{Located, locate};
