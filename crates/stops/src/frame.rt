// Whether a frame stops the player.
ghost use Rattle.std.specs.Prelude.{◌≡◌, ◌≤◌, length};
ghost use Rattle.stops.specs.Stops.{frame_stop};

use frames::{header_cause, slot_of};
use protocol::{Cause, Receiver};

// How many slots a frame may skip.
const LONGEST_GAP: u32 = 4095;

// The cause for which a frame stops the player, if there is one.
pub fn stop_of(x: Receiver, frame: &[u8]) -> Result<(), Cause>
    requires { 14 ≤ length frame.now }
    ensures { result ≡ frame_stop x frame.now }
{
    header_cause(1, x.settings, frame)?;
    let slot = slot_of(frame);
    if slot < x.due || slot - x.due > LONGEST_GAP {
        return Err(Cause::OtherSlot);
    }
    Ok(())
}
