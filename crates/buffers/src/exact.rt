// Whether what is lent has its lengths.
ghost use Rattle.std.specs.Prelude.{◌≡◌};
ghost use Rattle.protocol.specs.Lengths.{exactly, exactly_framed};

use crate::lengths::{frame_len, message_len};
use code::Settings;

// Rows of this size, and a message buffer.
pub fn exactly(s: Settings, size: usize, rows: usize, message: usize) -> bool
    ensures { result ≡ exactly s size rows message }
{
    rows == size && message == message_len(s)
}

// Those, and a frame.
pub fn exactly_framed(s: Settings, size: usize, rows: usize, message: usize, frame: usize) -> bool
    ensures { result ≡ exactly_framed s size rows message frame }
{
    exactly(s, size, rows, message) && frame == frame_len(s)
}
