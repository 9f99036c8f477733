// The lent buffers: the length of each, whether they have it, and writing into them.
#![tactic(auto)]

mod exact;
mod lengths;
mod slices;

pub use exact::{exactly, exactly_framed};
pub use lengths::{body_len, frame_len, message_len, receiver_len, row_count, row_len, sender_len};
pub use slices::{clear, write_at};
