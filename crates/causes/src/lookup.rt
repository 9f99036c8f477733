// The causes for which a look-up is refused.
ghost use Rattle.std.specs.Prelude.{◌≡◌};
ghost use Rattle.protocol.specs.Causes.{out_of_reach, look_up_cause};

use crate::slots::loss_cause;
use code::Settings;
use protocol::{Cause, Receiver};

// Whether no look-up tells of this message: it is below the slot due less the delay, below 0, or not below the slot due.
fn out_of_reach(s: Settings, due: u32, number: i64) -> bool
    ensures { result ≡ out_of_reach s due number }
{
    let slot = due as i64;
    let delay = s.effective_delay() as i64;
    number < slot - delay || number < 0 || slot <= number
}

// The first cause that holds for the look-up of the message with this number, if any.
pub fn look_up_cause(x: Receiver, rows: &[u8], number: i64, message: &[u8]) -> Result<(), Cause>
    ensures { result ≡ look_up_cause x rows.now number message.now }
{
    loss_cause(x, rows, message)?;
    if out_of_reach(x.settings, x.due, number) {
        return Err(Cause::OutOfReach);
    }
    Ok(())
}
