// The decision on one message, by the receiver's rows. The call takes any input at all, and a refused call changes nothing.
#![tactic(auto)]

ghost use Rattle.std.specs.Prelude.{◌≡◌};
ghost use Rattle.decision.specs.Call.{decision_of};

use buffers::{message_len, receiver_len};
use code::Settings;
use deciding::decided;
use protocol::{Cause, Told};

// What is told of message t once the slots below `due` are reported, by the rows. The buffer gets the message when it is whole, else
// zeros. A wrong length or settings that are not accepted are refused, and change nothing.
pub fn decide(s: Settings, rows: &[u8], due: u32, t: u32, message: &mut [u8]) -> Result<Told, Cause>
    ensures { record { reply = result; message = message.new }
        ≡ decision_of s rows.now due t message.old }
{
    if !s.accepted() {
        return Err(Cause::BadSettings);
    }
    if rows.len() != receiver_len(s) || message.len() != message_len(s) {
        return Err(Cause::BadLength);
    }
    Ok(decided(s, rows, due as usize, t as usize, message))
}
