// How long each lent buffer is, for settings of five bytes: W, T, B, N and L. 0 where they are not accepted.
ghost use Rattle.std.specs.Prelude.{◌≡◌};
ghost use Rattle.protocol.specs.Lengths.{message_len, frame_len, sender_len, receiver_len};
ghost use Rattle.state.specs.State.{state_len};
ghost use Rattle.library.specs.Calls.{length_for};

use buffers::{frame_len, message_len, receiver_len, sender_len};
use frames::settings_at;
use layout::or_zero;
use state::STATE_LEN;

// A state.
#[unsafe(no_mangle)]
pub extern "C" fn tob_state_len() -> usize
    ensures { result ≡ state_len }
{
    STATE_LEN
}

// A message.
#[unsafe(no_mangle)]
pub extern "C" fn tob_message_len(settings: &[u8; 5]) -> usize
    ensures { result ≡ length_for message_len settings.now }
{
    let s = settings_at(settings, 0);
    or_zero(s, message_len(s))
}

// A frame.
#[unsafe(no_mangle)]
pub extern "C" fn tob_frame_len(settings: &[u8; 5]) -> usize
    ensures { result ≡ length_for frame_len settings.now }
{
    let s = settings_at(settings, 0);
    or_zero(s, frame_len(s))
}

// A sender's rows.
#[unsafe(no_mangle)]
pub extern "C" fn tob_sender_len(settings: &[u8; 5]) -> usize
    ensures { result ≡ length_for sender_len settings.now }
{
    let s = settings_at(settings, 0);
    or_zero(s, sender_len(s))
}

// A receiver's rows.
#[unsafe(no_mangle)]
pub extern "C" fn tob_receiver_len(settings: &[u8; 5]) -> usize
    ensures { result ≡ length_for receiver_len settings.now }
{
    let s = settings_at(settings, 0);
    or_zero(s, receiver_len(s))
}
