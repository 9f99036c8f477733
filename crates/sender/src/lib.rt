// The sender: its opening, and a send, which turns a message into the frame of the slot due.
#![tactic(auto)]

mod calls;

pub use calls::{open, send};
