// Whether the slot due can be read from bytes, whichever end's state they are.
ghost use Rattle.std.specs.Prelude.{◌≡◌, ◌≤◌, length};
ghost use Rattle.state.specs.State.{either_mark, due_read_cause};

use crate::{RECEIVER_END, SENDER_END, STATE_LEN, is_marked};
use frames::settings_at;
use protocol::Cause;

// Whether the bytes begin with the mark of either end.
#[tactic(auto, unfolding(crate::specs::State::either_mark))]
fn is_either(bytes: &[u8]) -> bool
    requires { 4 ≤ length bytes.now }
    ensures { result ≡ either_mark bytes.now }
{
    is_marked(SENDER_END, bytes) || is_marked(RECEIVER_END, bytes)
}

// The first cause for which the slot due is not read from these bytes: their length, or that they are no state.
#[tactic(auto, using(std::proofs::lemmas::Bool::Decides::nat_tests), unfolding(crate::specs::State::due_read_cause))]
pub fn due_read_cause(state: &[u8]) -> Result<(), Cause>
    ensures { result ≡ due_read_cause state.now }
{
    if state.len() != STATE_LEN {
        return Err(Cause::BadLength);
    }
    if !is_either(state) {
        return Err(Cause::BadSettings);
    }
    if !settings_at(state, 4).accepted() {
        return Err(Cause::BadSettings);
    }
    Ok(())
}
