// The sender's two calls. Each takes any input at all, and a refused call changes nothing.
ghost use Rattle.std.specs.Prelude.{◌≡◌};
ghost use Rattle.protocol.specs.Calls.{open_sender_of, send_of};

use buffers::{clear, sender_len};
use causes::{open_cause, send_cause};
use code::Settings;
use ends::{next_sender, opened_sender};
use framing::{remember, write_frame};
use protocol::{Outcome, Sender};

// Opens a sender at slot 0, and zeroes its rows.
pub fn open(s: Settings, rows: &mut [u8]) -> Outcome<(), Sender>
    ensures { record { answer = result.answer; sender = result.state; rows = rows.new } ≡ open_sender_of s rows.old }
{
    if let Err(c) = open_cause(s, sender_len(s), rows) {
        return Outcome::refused(c, Sender::NONE);
    }
    clear(rows);
    Outcome {
        answer: Ok(()),
        state: opened_sender(s),
    }
}

// Hands out the frame of the slot due, and remembers the message.
pub fn send(x: Sender, rows: &mut [u8], message: &[u8], frame: &mut [u8]) -> Outcome<(), Sender>
    ensures { record { answer = result.answer; sender = result.state; rows = rows.new; frame = frame.new }
        ≡ send_of x rows.old message.now frame.old }
{
    if let Err(c) = send_cause(x, rows, message, frame) {
        return Outcome::refused(c, x);
    }
    let s = x.settings;
    write_frame(frame, rows, message, 1, s, x.due);
    remember(rows, message, s, x.due);
    Outcome {
        answer: Ok(()),
        state: next_sender(x),
    }
}
