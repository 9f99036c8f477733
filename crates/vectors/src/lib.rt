// Weighted sums of vectors of lanes, in loops that are turned into vector code.
#![tactic(auto)]

mod sums;

pub use sums::weighted;
