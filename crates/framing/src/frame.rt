// The frame of the slot due: 14 bytes of header, then the message, whose symbols are the first k, and the parity symbols.
ghost use Rattle.std.specs.Prelude.{◌≡◌, T, length};
ghost use Rattle.code.specs.Settings.{accepted};
ghost use Rattle.protocol.specs.Frame.{frame_of};
ghost use Rattle.protocol.specs.Lengths.{message_len, frame_len, sender_len};

use code::Settings;
use copying::write_at;
use frames::header_bytes;
use parity::write_parities;

// Writes the frame of this version for the slot due, from the message and the rows.
#[tactic(auto, using(code::proofs::Shape::shape))]
pub fn write_frame(
    frame: &mut [u8],
    rows: &[u8],
    message: &[u8],
    version: u16,
    s: Settings,
    due: u32,
)
    requires { T (accepted s) × (length rows.now ≡ sender_len s) × (length message.now ≡ message_len s)
        × (length frame.old ≡ frame_len s) }
    ensures { frame.new ≡ frame_of version s rows.now message.now due }
{
    let (head, body) = frame.split_at_mut(14);
    head.copy_from_slice(&header_bytes(version, s, due));
    let (sources, parities) = body.split_at_mut(message.len());
    write_at(sources, 0, message);
    write_parities(parities, rows, s, due);
}
