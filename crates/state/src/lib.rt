// The state that a caller keeps between calls: read, refused, and written.
#![tactic(auto)]

mod due;

ghost use Rattle.std.specs.Prelude.{◌≡◌, ◌≤◌, length};
ghost use Rattle.protocol.specs.Causes.{agree};
ghost use Rattle.state.specs.State.{mark_of, state_bytes, sender_bytes, receiver_bytes, state_len, saved};
ghost use Rattle.state.specs.State.{sender_in, receiver_in, state_cause};

use code::Settings;
pub use due::due_read_cause;
use ends::{receiver_at, sender_at};
use frames::{settings_at, settings_bytes, slot_at};
use protocol::{Cause, Receiver, Sender};

// The length of a state, of either end.
pub const STATE_LEN: usize = 20;

// The letter of the end that a state is of: `S` for a sender. A byte, since `state_cause` promises its answer of any.
pub const SENDER_END: u8 = b'S';

// And `R` for a receiver.
pub const RECEIVER_END: u8 = b'R';

// The sender that a state keeps.
#[tactic(auto, unfolding(crate::specs::State::sender_in))]
pub fn sender_in(state: &[u8]) -> Sender
    requires { state_len ≤ length state.now }
    ensures { result ≡ sender_in state.now }
{
    sender_at(settings_at(state, 4), slot_at(state, 9))
}

// The receiver that a state keeps.
#[tactic(auto, unfolding(crate::specs::State::receiver_in))]
pub fn receiver_in(state: &[u8]) -> Receiver
    requires { state_len ≤ length state.now }
    ensures { result ≡ receiver_in state.now }
{
    receiver_at(settings_at(state, 4), slot_at(state, 13), slot_at(state, 9))
}

// The mark of a state of this end.
fn mark_of(end: u8) -> [u8; 4]
    ensures { result ≡ mark_of end }
{
    [b'T', b'O', b'B', end]
}

// Whether the bytes begin with the mark of this end.
fn is_marked(end: u8, bytes: &[u8]) -> bool
    requires { 4 ≤ length bytes.now }
    ensures { result ≡ agree 4 bytes.now (mark_of end) }
{
    bytes.starts_with(&mark_of(end))
}

// The first cause that a state of this end gives, before those of the call on what it keeps.
#[tactic(auto, using(std::proofs::lemmas::Bool::Decides::nat_tests), unfolding(crate::specs::State::state_cause))]
pub fn state_cause(end: u8, state: &[u8]) -> Result<(), Cause>
    ensures { result ≡ state_cause end state.now }
{
    if state.len() != STATE_LEN {
        return Err(Cause::BadLength);
    }
    if !is_marked(end, state) {
        return Err(Cause::BadSettings);
    }
    Ok(())
}

// A state, part by part.
fn state_bytes(end: u8, s: Settings, due: u32, opening: u32) -> [u8; STATE_LEN]
    ensures { result ≡ state_bytes end s due opening }
{
    let mut bytes = [0; STATE_LEN];
    bytes[..4].copy_from_slice(&mark_of(end));
    bytes[4..9].copy_from_slice(&settings_bytes(s));
    bytes[9..13].copy_from_slice(&due.to_be_bytes());
    bytes[13..17].copy_from_slice(&opening.to_be_bytes());
    bytes
}

// The state of this sender.
pub fn sender_bytes(x: Sender) -> [u8; STATE_LEN]
    ensures { result ≡ sender_bytes x }
{
    state_bytes(SENDER_END, x.settings, x.due, 0)
}

// The state of this receiver.
pub fn receiver_bytes(x: Receiver) -> [u8; STATE_LEN]
    ensures { result ≡ receiver_bytes x }
{
    state_bytes(RECEIVER_END, x.settings, x.due, x.opening)
}

// Writes these bytes over the state where the call was taken; else it stays as it was. The test stays beside the bytes, as `saved` has
// them.
pub fn save(taken: bool, bytes: [u8; STATE_LEN], state: &mut [u8])
    requires { length state.old ≡ state_len }
    ensures { state.new ≡ saved taken bytes state.old }
{
    if taken {
        state.copy_from_slice(&bytes);
    }
}
