// What the reports of losses and of frames share.
ghost use Rattle.std.specs.Prelude.{◌≡◌, ◌≤◌, T, length};
ghost use Rattle.code.specs.Settings.{accepted};
ghost use Rattle.protocol.specs.Lengths.{last_slot, message_len, receiver_len};
ghost use Rattle.protocol.specs.Calls.{told_by};

use buffers::clear;
use ends::next_receiver;
use protocol::{Outcome, Receiver, Told};

// Tells what the report of the slot due tells, its row being written, and moves on.
pub(crate) fn moved_on(x: Receiver, rows: &[u8], message: &mut [u8]) -> Outcome<Told, Receiver>
    requires { T (accepted x.settings) × (x.due ≤ last_slot) × (length rows.now ≡ receiver_len x.settings)
        × (length message.old ≡ message_len x.settings) }
    ensures { record { reply = result.answer; receiver = result.state; rows = rows.now; message = message.new }
        ≡ told_by x rows.now }
{
    let delay = x.settings.effective_delay() as u32;
    let state = next_receiver(x);
    if x.due < delay {
        clear(message);
        return Outcome {
            answer: Ok(Told::NoneYet),
            state,
        };
    }
    Outcome {
        answer: decision::decide(x.settings, rows, x.due + 1, x.due - delay, message),
        state,
    }
}
