// The numbers of the static library's replies, the state saved where a call was accepted, and lengths for its settings.
#![tactic(auto)]

mod lengths;
mod numbers;
mod outcomes;

pub use lengths::or_zero;
pub use numbers::reply_number;
pub use outcomes::{save_answer, save_reply};
