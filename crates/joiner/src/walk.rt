// A walk over one recording: what is wrong with its frames.
ghost use Rattle.std.specs.Prelude.{◌≡◌};
ghost use Rattle.aerials.specs.Pair.{other_mark, other_settings, falling};

use crate::recorded::Recorded;
use code::Settings;
use frames::{agrees, header_bytes};

// What is wrong with some frame of a recording.
#[derive(Clone, Copy)]
pub(crate) struct Faults {
    pub(crate) mark: bool,
    pub(crate) settings: bool,
    pub(crate) falling: bool,
}

// What is wrong with the frames of a recording, all of them. It takes the recording by its parts, which go in registers: as one value it
// would stand on the stack of the call that checks a pair, of which the archive's header promises less.
pub(crate) fn walked(s: Settings, bytes: &[u8]) -> Faults
    ensures mark { result.mark ≡ other_mark s bytes.now }
    ensures settings { result.settings ≡ other_settings s bytes.now }
    ensures falling { result.falling ≡ falling s bytes.now }
{
    let recorded = Recorded { settings: s, bytes };
    let head = header_bytes(1, s, 0);
    let mut mark = false;
    let mut settings = false;
    let mut falling = false;
    let mut least: u64 = 0;
    for n in 0..recorded.len() {
        let frame = recorded.frame(n);
        let slot = u64::from(recorded.slot(n));
        mark |= !agrees(frame, head, 0, 5);
        settings |= !agrees(frame, head, 5, 10);
        falling |= slot < least;
        least = slot + 1;
    }
    Faults {
        mark,
        settings,
        falling,
    }
}
