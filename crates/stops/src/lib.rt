// Why a player says no: the tests of a recording before any line, and those of each frame. Document 01, "Playing a recording".
#![tactic(auto)]

mod frame;
mod opening;

pub use frame::stop_of;
pub use opening::examine;
