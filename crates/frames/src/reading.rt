// Whether the slot of bytes can be read as a frame's.
ghost use Rattle.std.specs.Prelude.{◌≡◌};
ghost use Rattle.frames.specs.Fields.{slot_read_cause};

use crate::header::{agrees, header_bytes};
use crate::settings_at;
use protocol::Cause;

// The first cause for which the slot of these bytes is not read: there are too few, or they do not begin as a frame does.
pub fn slot_read_cause(frame: &[u8]) -> Result<(), Cause>
    ensures { result ≡ slot_read_cause frame.now }
{
    if frame.len() < 14 {
        return Err(Cause::BadLength);
    }
    let head = header_bytes(1, settings_at(frame, 5), 0);
    if !agrees(frame, head, 0, 5) {
        return Err(Cause::OtherMark);
    }
    Ok(())
}
