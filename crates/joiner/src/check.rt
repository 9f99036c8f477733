// The check of a pair.
ghost use Rattle.std.specs.Prelude.{◌≡◌, ◌||◌};
ghost use Rattle.aerials.specs.Causes.{check_number};
ghost use Rattle.aerials.specs.Pair.{unfit, pair_cause, pair_check};
ghost use Rattle.joiner.specs.Places.{frames_met};

use crate::overlap::unlike;
use crate::recorded::Recorded;
use crate::search::Ordered;
use crate::walk::{Faults, walked};
use aerials::PairCause;
use buffers::frame_len;
use code::Settings;
use recording::LONGEST;

impl<'a> Recorded<'a> {
    // Whether it is too long, or not a whole number of frames.
    fn unfit(self) -> bool
        ensures { result ≡ unfit self.entry.settings self.entry.bytes.now }
    {
        LONGEST < self.bytes.len() || self.bytes.len() % frame_len(self.settings) != 0
    }
}

// The first of causes 4, 5 and 9 that a frame of either recording meets, if one does.
fn frames_met(a: Faults, b: Faults) -> Result<(), PairCause>
    ensures { result ≡ frames_met (a.mark || b.mark) (a.settings || b.settings) (a.falling || b.falling) }
{
    if a.mark || b.mark {
        Err(PairCause::OtherMark)
    } else if a.settings || b.settings {
        Err(PairCause::OtherSettings)
    } else if a.falling || b.falling {
        Err(PairCause::NotRising)
    } else {
        Ok(())
    }
}

// The check of a pair: the first cause that holds, if one does, each looked for in both recordings.
pub fn pair_cause(s: Settings, first: &[u8], second: &[u8]) -> Result<(), PairCause>
    ensures cause { result ≡ pair_check s first.now second.now }
    ensures number { check_number result ≡ pair_cause s first.now second.now }
{
    let one = Recorded {
        settings: s,
        bytes: first,
    };
    let two = Recorded {
        settings: s,
        bytes: second,
    };
    if !s.accepted() {
        return Err(PairCause::BadSettings);
    }
    if one.unfit() || two.unfit() {
        return Err(PairCause::BadLength);
    }
    frames_met(walked(s, first), walked(s, second))?;
    if unlike(Ordered::new(s, first), Ordered::new(s, second)) {
        return Err(PairCause::Unlike);
    }
    Ok(())
}
