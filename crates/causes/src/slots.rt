// The causes for which the calls in a slot are refused: a send, and the reports of a loss and of a frame.
ghost use Rattle.std.specs.Prelude.{◌≡◌};
ghost use Rattle.protocol.specs.Causes.{slot_cause, send_cause, loss_cause, frame_cause_of};

use buffers::{exactly, exactly_framed, receiver_len, sender_len};
use code::Settings;
use frames::{agrees, header_bytes, header_cause};
use protocol::{Cause, Receiver, Sender, Slot};

// The first of causes 1 to 3, which every call in a slot meets.
fn slot_cause(s: Settings, exact: bool, due: u32) -> Result<(), Cause>
    ensures { result ≡ slot_cause s exact due }
{
    if !s.accepted() {
        return Err(Cause::BadSettings);
    }
    if !exact {
        return Err(Cause::BadLength);
    }
    if Slot::LAST.0 < due {
        return Err(Cause::PastLastSlot);
    }
    Ok(())
}

// The first cause that holds for a send, if any.
pub fn send_cause(x: Sender, rows: &[u8], message: &[u8], frame: &[u8]) -> Result<(), Cause>
    ensures { result ≡ send_cause x rows.now message.now frame.now }
{
    let s = x.settings;
    let exact = exactly_framed(s, sender_len(s), rows.len(), message.len(), frame.len());
    slot_cause(s, exact, x.due)
}

// The first cause that holds for the report of a loss, if any.
pub fn loss_cause(x: Receiver, rows: &[u8], message: &[u8]) -> Result<(), Cause>
    ensures { result ≡ loss_cause x rows.now message.now }
{
    let s = x.settings;
    let exact = exactly(s, receiver_len(s), rows.len(), message.len());
    slot_cause(s, exact, x.due)
}

// The first cause that holds for the report of a frame of this version, if any.
pub fn frame_cause(
    version: u16,
    x: Receiver,
    rows: &[u8],
    frame: &[u8],
    message: &[u8],
) -> Result<(), Cause>
    ensures { result ≡ frame_cause_of version x rows.now frame.now message.now }
{
    let s = x.settings;
    let exact = exactly_framed(s, receiver_len(s), rows.len(), message.len(), frame.len());
    slot_cause(s, exact, x.due)?;
    header_cause(version, s, frame)?;
    if !agrees(frame, header_bytes(version, s, x.due), 10, 14) {
        return Err(Cause::OtherSlot);
    }
    Ok(())
}
