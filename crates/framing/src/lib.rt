// A frame written, and its message remembered in the sender's rows. That the settings are accepted and each slice has its length stays a
// clause of both: the definitions speak of settings and lists, and a struct of them would be opened in every clause.
#![tactic(auto)]

mod frame;
mod rows;

pub use frame::write_frame;
pub use rows::remember;
