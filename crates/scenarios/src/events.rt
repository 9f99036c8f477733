// What happens to a slot's frame.
use crate::faults::Faults;
use drawing::Random;

// Whether the frame is lost, the faults of a report before the true one if there is such a report, those of the true one, and how many
// losses are left over.
#[derive(Clone, Copy)]
pub(crate) struct Event {
    pub(crate) lost: bool,
    pub(crate) before: Option<Faults>,
    pub(crate) last: Faults,
    pub(crate) left: usize,
}

// The event of a loss with nothing wrong, and of a frame that is heard.
const LOST: Event = Event {
    lost: true,
    before: None,
    last: Faults::NONE,
    left: 0,
};

const HEARD: Event = Event {
    lost: false,
    ..LOST
};

// A loss that is left over, or one of the sixteen events.
pub(crate) fn draw(left: usize, burst: u8, random: &mut Random) -> Event {
    if 0 < left {
        return Event {
            left: left - 1,
            ..LOST
        };
    }
    let before = |faults| Event {
        before: Some(faults),
        ..HEARD
    };
    match random.below(16) {
        6 | 7 => LOST,
        // once in three times a byte of the body is damaged
        8 => {
            let last = if random.below(3) == 0 {
                Faults::BODY
            } else {
                Faults::NONE
            };
            Event { last, ..HEARD }
        }
        9 => before(Faults::MARK),
        10 => before(Faults::SET),
        11 => before(Faults::PLACE),
        12 => before(Faults::LENGTH),
        13 => before(Faults::drawn(63, random)),
        // a burst begins
        14 => Event {
            left: random.below(usize::from(burst) + 2),
            ..LOST
        },
        15 => Event {
            before: Some(Faults::drawn(7, random)),
            ..LOST
        },
        _ => HEARD,
    }
}
