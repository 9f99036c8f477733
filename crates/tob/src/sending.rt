// The sender's call.
ghost use Rattle.std.specs.Prelude.{◌≡◌};
ghost use Rattle.library.specs.Calls.{send_bytes};

use layout::save_answer;
use state::{SENDER_END, sender_bytes, sender_in, state_cause};

// Hands out the frame of the slot due, and remembers the message.
#[unsafe(no_mangle)]
pub extern "C" fn tob_send(
    state: &mut [u8],
    rows: &mut [u8],
    message: &[u8],
    frame: &mut [u8],
) -> u32
    ensures { record { reply = result; state = state.new; rows = rows.new; frame = frame.new }
        ≡ send_bytes state.old rows.old message.now frame.old }
{
    if let Err(c) = state_cause(SENDER_END, state) {
        return u32::from(c);
    }
    let r = sender::send(sender_in(state), rows, message, frame);
    save_answer(r.answer, sender_bytes(r.state), state)
}
