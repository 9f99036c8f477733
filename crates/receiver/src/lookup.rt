// The look-up of a message before its last slot is reported.
ghost use Rattle.std.specs.Prelude.{◌≡◌};
ghost use Rattle.protocol.specs.Calls.{look_up_of};

use causes::look_up_cause;
use protocol::{Cause, Receiver, Told};

// Tells of the message with this number by the slots reported so far. The rows are lent to read, so that a look-up leaves them and the
// state as they are.
pub fn look_up(x: Receiver, rows: &[u8], number: i64, message: &mut [u8]) -> Result<Told, Cause>
    ensures { record { reply = result; message = message.new }
        ≡ look_up_of x rows.now number message.old }
{
    look_up_cause(x, rows, number, message)?;
    decision::decide(x.settings, rows, x.due, number as u32, message)
}
