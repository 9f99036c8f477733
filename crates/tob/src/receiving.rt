// The receiver's calls: the reports of frames and of losses, and the look-up of a message.
ghost use Rattle.std.specs.Prelude.{◌≡◌};
ghost use Rattle.library.specs.Calls.{heard_bytes, lost_bytes, look_up_bytes};

use layout::{reply_number, save_reply};
use state::{RECEIVER_END, receiver_bytes, receiver_in, state_cause};

// The report of a frame, for the slot due.
#[unsafe(no_mangle)]
pub extern "C" fn tob_heard(
    state: &mut [u8],
    rows: &mut [u8],
    frame: &[u8],
    message: &mut [u8],
) -> u32
    ensures { record { reply = result; state = state.new; rows = rows.new; message = message.new }
        ≡ heard_bytes state.old rows.old frame.now message.old }
{
    if let Err(c) = state_cause(RECEIVER_END, state) {
        return u32::from(c);
    }
    let r = receiver::heard(receiver_in(state), rows, frame, message);
    save_reply(r.answer, receiver_bytes(r.state), state)
}

// The report that the slot due was lost.
#[unsafe(no_mangle)]
pub extern "C" fn tob_lost(state: &mut [u8], rows: &mut [u8], message: &mut [u8]) -> u32
    ensures { record { reply = result; state = state.new; rows = rows.new; message = message.new }
        ≡ lost_bytes state.old rows.old message.old }
{
    if let Err(c) = state_cause(RECEIVER_END, state) {
        return u32::from(c);
    }
    let r = receiver::loss(receiver_in(state), rows, message);
    save_reply(r.answer, receiver_bytes(r.state), state)
}

// Tells of the message with this number by the slots reported so far. State and rows are lent to read.
#[unsafe(no_mangle)]
pub extern "C" fn tob_look_up(state: &[u8], rows: &[u8], number: i64, message: &mut [u8]) -> u32
    ensures { record { reply = result; message = message.new }
        ≡ look_up_bytes state.now rows.now number message.old }
{
    if let Err(c) = state_cause(RECEIVER_END, state) {
        return u32::from(c);
    }
    reply_number(receiver::look_up(receiver_in(state), rows, number, message))
}
