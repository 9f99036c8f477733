// Calls of both ends in buffers that may be cut too short or too long, and the line that each call prints.
#![tactic(auto)]

mod lent;
mod print;

pub use lent::{heard, loss, open_receiver, open_sender, send};
pub use print::{reply, settings};
