// The search for the first cause that refuses a call, by the call's table. It writes nothing.
#![tactic(auto)]

mod lookup;
mod opening;
mod slots;

pub use lookup::look_up_cause;
pub use opening::{open_cause, open_receiver_cause};
pub use slots::{frame_cause, loss_cause, send_cause};
