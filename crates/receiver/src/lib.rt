// The receiver: its opening, the reports of losses and of frames, and the look-up of a message. Each call takes any input at all, and a
// refused call changes nothing.
#![tactic(auto)]

mod frame_report;
mod lookup;
mod loss_report;
mod opening;
mod report;

pub use frame_report::heard;
pub use lookup::look_up;
pub use loss_report::loss;
pub use opening::open;
