// What is wrong with a call.
ghost use Rattle.std.specs.Prelude.{◌<◌, ◌≤◌};

use code::Settings;
use cuts::Call;
use drawing::Random;

// A set of faults, by the number that the reference draws: the sum of the numbers of the faults in it.
#[derive(Clone, Copy)]
pub(crate) struct Faults(usize);

impl Faults {
    pub(crate) const NONE: Faults = Faults(0);
    // of the state's settings
    const SETTINGS: Faults = Faults(1);
    // of one length
    pub(crate) const LENGTH: Faults = Faults(2);
    // of the slot due
    const DUE: Faults = Faults(4);
    // of the frame's first bytes
    pub(crate) const MARK: Faults = Faults(8);
    // of the settings in the frame
    pub(crate) const SET: Faults = Faults(16);
    // of the slot in the frame
    pub(crate) const PLACE: Faults = Faults(32);
    // of the frame's body
    pub(crate) const BODY: Faults = Faults(64);

    // One of so many sets, none of which is empty.
    pub(crate) fn drawn(sets: u8, random: &mut Random) -> Faults
        requires { 0 < sets }
    {
        Faults(random.below(usize::from(sets)) + 1)
    }

    fn has(self, fault: Faults) -> bool {
        self.0 & fault.0 != 0
    }
}

// The settings broken in one of eight ways, which are drawn by their numbers, or as they are. In ways 6 and 7 n is 17.
pub(crate) fn broken(s: Settings, way: usize) -> Settings {
    let scattered = 1;
    match way {
        0 => Settings {
            window: s.burst,
            ..s
        },
        1 => Settings {
            burst: s.effective_delay().wrapping_add(1),
            ..s
        },
        2 => Settings { scattered: 0, ..s },
        3 => Settings {
            scattered: s.burst.wrapping_add(1),
            ..s
        },
        4 => Settings { lanes: 0, ..s },
        5 => Settings { lanes: 65, ..s },
        6 => Settings {
            window: 16,
            delay: 15,
            burst: 2,
            scattered,
            ..s
        },
        7 => Settings {
            window: 10,
            delay: 9,
            burst: 8,
            scattered,
            ..s
        },
        _ => s,
    }
}

// One byte less is lent, or one byte more.
pub(crate) fn off(cut: usize, more: bool) -> usize {
    if more {
        cut.saturating_sub(1)
    } else {
        cut.wrapping_add(1)
    }
}

// The call, with one of so many things at a wrong length.
fn miscut(exact: Call, things: usize, random: &mut Random) -> Call
    requires { (0 < things) × (things ≤ 3) }
{
    let h = random.below(things * 2);
    let more = h % 2 == 1;
    match h / 2 {
        0 => Call {
            rows: off(exact.rows, more),
            ..exact
        },
        1 => Call {
            first: off(exact.first, more),
            ..exact
        },
        _ => Call {
            second: off(exact.second, more),
            ..exact
        },
    }
}

// The call of so many things with the faults of its state and lengths.
pub(crate) fn wrong(exact: Call, things: usize, faults: Faults, random: &mut Random) -> Call
    requires { (0 < things) × (things ≤ 3) }
{
    let mut call = exact;
    if faults.has(Faults::SETTINGS) {
        call.settings = broken(exact.settings, random.below(8));
    }
    if faults.has(Faults::LENGTH) {
        call = miscut(call, things, random);
    }
    if faults.has(Faults::DUE) {
        call.due = past_the_last(random);
    }
    call
}

// A slot past the last.
pub(crate) fn past_the_last(random: &mut Random) -> u32 {
    4000000000 + u32::from(random.next())
}

// Changes one of these bytes, if there is one.
fn flip(bytes: &mut [u8], random: &mut Random) {
    if !bytes.is_empty() {
        let q = random.below(bytes.len());
        bytes[q] ^= (random.below(255) + 1) as u8;
    }
}

// The faults of a frame: a byte of each part that is wrong is changed.
#[tactic(auto, unfolding(protocol::specs::Lengths::frame_len))]
pub(crate) fn change(frame: &mut [u8; 1040], s: Settings, faults: Faults, random: &mut Random) {
    if faults.has(Faults::MARK) {
        flip(&mut frame[0..5], random);
    }
    if faults.has(Faults::SET) {
        flip(&mut frame[5..10], random);
    }
    if faults.has(Faults::PLACE) {
        flip(&mut frame[10..14], random);
    }
    if faults.has(Faults::BODY) {
        let end = buffers::frame_len(s).min(1040);
        flip(&mut frame[14..end], random);
    }
}
