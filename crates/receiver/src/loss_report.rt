// The report that a slot was lost.
ghost use Rattle.std.specs.Prelude.{◌≡◌};
ghost use Rattle.protocol.specs.Calls.{loss_of};

use crate::report::moved_on;
use causes::loss_cause;
use protocol::{Outcome, Receiver, Told};
use ring::record_lost;

// The report that the slot due was lost.
pub fn loss(x: Receiver, rows: &mut [u8], message: &mut [u8]) -> Outcome<Told, Receiver>
    ensures { record { reply = result.answer; receiver = result.state; rows = rows.new; message = message.new }
        ≡ loss_of x rows.old message.old }
{
    if let Err(c) = loss_cause(x, rows, message) {
        return Outcome::refused(c, x);
    }
    record_lost(rows, x.settings, x.due);
    moved_on(x, rows, message)
}
