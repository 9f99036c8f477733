// Where a slot stands in a recording, found by halving.
ghost use Rattle.std.specs.Prelude.{◌≡◌};
ghost use Rattle.aerials.specs.Parts.{below};
ghost use Rattle.aerials.specs.Sound.{Rising};
ghost use Rattle.aerials.specs.Next.{next_in};
ghost use Rattle.joiner.specs.Halving.{Bracket};
ghost use Rattle.joiner.specs.Places.{Rising-prop, place_in};

use crate::recorded::Recorded;
use code::Settings;

// A recording in which the slots rise from frame to frame.
#[derive(Clone, Copy)]
pub(crate) struct Ordered<'a> {
    pub(crate) recorded: Recorded<'a>,
    ghost rises: { Rising recorded.settings recorded.bytes.now } by { Rising-prop recorded.settings recorded.bytes.now },
}

impl<'a> Ordered<'a> {
    pub(crate) fn new(settings: Settings, bytes: &'a [u8]) -> Ordered<'a>
        requires { Rising settings bytes.now }
        ensures settings { result.recorded.settings ≡ settings }
        ensures bytes { result.recorded.bytes ≡ bytes.entry }
    {
        Ordered {
            recorded: Recorded { settings, bytes },
        }
    }

    // The frames between these two halved, until none is left: those before `low` stand for lower slots, those from `high` on do not.
    // Frames, whose length is known at run time alone, are no slice of elements that the library would search.
    fn halve(self, slot: u32, low: usize, high: usize) -> usize
        requires { Bracket self.recorded.settings self.recorded.bytes.now slot low high }
        ensures { result ≡ below self.entry.recorded.settings self.entry.recorded.bytes.now slot }
    {
        let mut bottom = low;
        let mut top = high;
        // Two ends close in on the slot, by halves: no range is walked.
        while bottom < top {
            let middle = bottom + (top - bottom) / 2;
            let here = self.recorded.slot(middle);
            if here == slot {
                return middle;
            }
            if here < slot {
                bottom = middle + 1;
            } else {
                top = middle;
            }
        }
        bottom
    }

    // How many frames stand for slots below this one. Slots rise by one at least from frame to frame, so as many frames as slots are
    // missing lie between the first that may be the slot's and the last.
    fn below(self, slot: u32) -> usize
        ensures { result ≡ below self.entry.recorded.settings self.entry.recorded.bytes.now slot }
    {
        let count = self.recorded.len();
        if count == 0 {
            return 0;
        }
        let first = self.recorded.slot(0);
        if slot <= first {
            return 0;
        }
        let last = self.recorded.slot(count - 1);
        if last < slot {
            return count;
        }
        let low = count.saturating_sub((last - slot) as usize + 1);
        self.halve(slot, low, count.min((slot - first) as usize))
    }

    // The number of the slot's frame, if it has one.
    pub(crate) fn place(self, slot: u32) -> Option<usize>
        ensures { result ≡ place_in self.entry.recorded.settings self.entry.recorded.bytes.now slot }
    {
        let n = self.below(slot);
        if n < self.recorded.len() && self.recorded.slot(n) == slot {
            Some(n)
        } else {
            None
        }
    }

    // The next slot, from this one on, that it has.
    pub(crate) fn next(self, slot: u32) -> Option<u32>
        ensures { result ≡ next_in self.entry.recorded.settings self.entry.recorded.bytes.now slot }
    {
        let n = self.below(slot);
        if n < self.recorded.len() {
            Some(self.recorded.slot(n))
        } else {
            None
        }
    }
}
