// The joiner: the check of a pair of recordings, and the part that is lent for a slot. Document 02 §7.
#![tactic(auto)]

mod check;
mod lending;
mod onward;
mod overlap;
mod recorded;
mod search;
mod walk;

pub use check::pair_cause;
pub use lending::{join, part};
pub use onward::next_slot;
