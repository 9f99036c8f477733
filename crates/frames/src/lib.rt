// What bytes say of themselves: settings and a slot, from a place on; the header of a frame, and whether a frame has it. That a frame has
// room for a header stays a clause of each function: `agrees` and `header_cause`, which docs/ names, take any slice.
#![tactic(auto)]

mod header;
mod reading;

ghost use Rattle.std.specs.Prelude.{◌≡◌, ◌+◌, ◌*◌, ◌≤◌, length};
ghost use Rattle.protocol.specs.Causes.{header_cause};
ghost use Rattle.frames.specs.Fields.{settings_at, slot_at, slot_in};

use code::Settings;
pub use header::{agrees, header_bytes, settings_bytes};
use protocol::Cause;
pub use reading::slot_read_cause;

// W, T, B, N and L, from the place `start`. Each is read at its place: a pattern over the slice would need an arm for fewer bytes.
#[tactic(auto, unfolding(crate::specs::Fields::settings_at))]
pub fn settings_at(bytes: &[u8], start: usize) -> Settings
    requires { start + 5 ≤ length bytes.now }
    ensures { result ≡ settings_at start bytes.now }
{
    Settings {
        window: bytes[start],
        delay: bytes[start + 1],
        burst: bytes[start + 2],
        scattered: bytes[start + 3],
        lanes: bytes[start + 4],
    }
}

// A slot in 32 bits, high byte first, from the place `start`.
#[tactic(auto, unfolding(crate::specs::Fields::slot_at))]
pub fn slot_at(bytes: &[u8], start: usize) -> u32
    requires { start + 4 ≤ length bytes.now }
    ensures { result ≡ slot_at start bytes.now }
{
    u32::from_be_bytes([
        bytes[start],
        bytes[start + 1],
        bytes[start + 2],
        bytes[start + 3],
    ])
}

// The slot of a frame.
pub fn slot_of(frame: &[u8]) -> u32
    requires { 14 ≤ length frame.now }
    ensures { result ≡ slot_in frame.now }
{
    slot_at(frame, 10)
}

// The first of causes 4 and 5 that a frame meets for this version and these settings, if there is one.
pub fn header_cause(version: u16, s: Settings, frame: &[u8]) -> Result<(), Cause>
    requires { 14 ≤ length frame.now }
    ensures { result ≡ header_cause version s frame.now }
{
    let head = header_bytes(version, s, 0);
    if !agrees(frame, head, 0, 5) {
        return Err(Cause::OtherMark);
    }
    if !agrees(frame, head, 5, 10) {
        return Err(Cause::OtherSettings);
    }
    Ok(())
}
