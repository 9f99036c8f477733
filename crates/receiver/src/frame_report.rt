// The report of a frame.
ghost use Rattle.std.specs.Prelude.{◌≡◌};
ghost use Rattle.protocol.specs.Calls.{heard_of};

use crate::report::moved_on;
use causes::frame_cause;
use protocol::{Outcome, Receiver, Told};
use ring::record_heard;

// The report of a frame, for the slot due.
pub fn heard(
    x: Receiver,
    rows: &mut [u8],
    frame: &[u8],
    message: &mut [u8],
) -> Outcome<Told, Receiver>
    ensures { record { reply = result.answer; receiver = result.state; rows = rows.new; message = message.new }
        ≡ heard_of x rows.old frame.now message.old }
{
    if let Err(c) = frame_cause(1, x, rows, frame, message) {
        return Outcome::refused(c, x);
    }
    record_heard(rows, frame, x.settings, x.due);
    moved_on(x, rows, message)
}
