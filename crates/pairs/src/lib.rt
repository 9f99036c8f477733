// A pair of recordings at the bench: how it starts, and its steps, each of which makes one report and writes at most one line over the
// start of a lent one. Document 02 §7.
#![tactic(auto)]

mod start;
mod stepping;

pub use start::examine;
pub use stepping::step;
