// How a recording starts: the tests before any line.
ghost use Rattle.std.specs.Prelude.{◌≡◌};
ghost use Rattle.stops.specs.Stops.{start_of};

use buffers::frame_len;
use code::Settings;
use frames::settings_at;
use protocol::Cause;
use recording::LONGEST;

// The settings that a recording is played with, if it is not empty, or the cause that refuses it before any line.
pub fn examine(recording: &[u8]) -> Result<Option<Settings>, Cause>
    ensures { result ≡ start_of recording.now }
{
    if recording.is_empty() {
        return Ok(None);
    }
    if recording.len() < 14 || recording.len() > LONGEST {
        return Err(Cause::BadLength);
    }
    let s = settings_at(recording, 5);
    if !s.accepted() {
        return Err(Cause::BadSettings);
    }
    if recording.len() % frame_len(s) != 0 {
        return Err(Cause::BadLength);
    }
    Ok(Some(s))
}
