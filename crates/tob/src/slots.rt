// The slots that a receiving loop asks for: the one due at either end, and that of a frame.
ghost use Rattle.std.specs.Prelude.{◌≡◌};
ghost use Rattle.library.specs.Calls.{slot_due_bytes, frame_slot_bytes};

use frames::{slot_at, slot_of, slot_read_cause};
use state::due_read_cause;

// The slot due of the state of either end.
#[unsafe(no_mangle)]
pub extern "C" fn tob_slot_due(state: &[u8], slot: &mut u32) -> u32
    ensures { record { reply = result; slot = slot.new } ≡ slot_due_bytes state.now slot.old }
{
    if let Err(c) = due_read_cause(state) {
        return u32::from(c);
    }
    *slot = slot_at(state, 9);
    0
}

// The slot of a frame, from its header.
#[unsafe(no_mangle)]
pub extern "C" fn tob_frame_slot(frame: &[u8], slot: &mut u32) -> u32
    ensures { record { reply = result; slot = slot.new } ≡ frame_slot_bytes frame.now slot.old }
{
    if let Err(c) = slot_read_cause(frame) {
        return u32::from(c);
    }
    *slot = slot_of(frame);
    0
}
