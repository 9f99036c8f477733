// The static library for the terminals: each function is called from C or Rust on lent bytes, whatever they are, and says by one number
// what became of them. A refused call changes no lent byte. C has neither a Result nor a generic function, so that each export turns its
// own answer into a number, and each length has an export.
#![tactic(auto)]

mod lengths;
mod openings;
mod pairs;
mod receiving;
mod sending;
mod slots;
mod version;
