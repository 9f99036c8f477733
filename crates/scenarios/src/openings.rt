// The openings of both ends: many with something wrong, and last the true one.
use crate::buffer::Buffer;
use crate::{Run, faults};
use code::Settings;
use drawing::Random;
use protocol::{Receiver, Sender};
use std::io::Write;

// The settings of an opening, a receiver's slot, and what is not lent of its rows.
#[derive(Clone, Copy)]
struct Opening {
    settings: Settings,
    slot: u32,
    cut: usize,
}

impl Opening {
    // With settings broken in this way.
    fn broken(self, way: usize) -> Opening {
        Opening {
            settings: faults::broken(self.settings, way),
            ..self
        }
    }

    // With rows shorter by one, or longer.
    fn off(self, more: bool) -> Opening {
        Opening {
            cut: faults::off(self.cut, more),
            ..self
        }
    }

    // At a slot past the last.
    fn late(self, random: &mut Random) -> Opening {
        Opening {
            slot: faults::past_the_last(random),
            ..self
        }
    }

    // Those of either end that have broken settings, a wrong length, or both.
    fn wrong(self, random: &mut Random) -> [Opening; 11] {
        [
            self.broken(0),
            self.broken(1),
            self.broken(2),
            self.broken(3),
            self.broken(4),
            self.broken(5),
            self.broken(6),
            self.broken(7),
            self.off(false),
            self.off(true),
            self.broken(random.below(8)).off(false),
        ]
    }

    // A receiver's past the last slot: with nothing else wrong, a wrong length, or broken settings.
    fn too_late(self, random: &mut Random) -> [Opening; 3] {
        [
            self.late(random),
            self.late(random).off(false),
            self.late(random).broken(random.below(8)),
        ]
    }
}

// The openings of the sender.
pub(crate) fn of_sender<W: Write>(
    run: &mut Run<W>,
    settings: Settings,
    rows: &mut Buffer<32768>,
) -> Sender {
    let exact = Opening {
        settings,
        slot: 0,
        cut: rows.cut,
    };
    for next in exact.wrong(&mut run.random) {
        trace::open_sender(&mut run.out, next.settings, next.cut, &mut rows.bytes);
    }
    trace::open_sender(&mut run.out, settings, rows.cut, &mut rows.bytes)
}

// The openings of the receiver.
pub(crate) fn of_receiver<W: Write>(
    run: &mut Run<W>,
    settings: Settings,
    slot: u32,
    rows: &mut Buffer<32768>,
) -> Receiver {
    let exact = Opening {
        settings,
        slot,
        cut: rows.cut,
    };
    for next in exact.wrong(&mut run.random) {
        trace::open_receiver(
            &mut run.out,
            next.settings,
            next.slot,
            next.cut,
            &mut rows.bytes,
        );
    }
    for next in exact.too_late(&mut run.random) {
        trace::open_receiver(
            &mut run.out,
            next.settings,
            next.slot,
            next.cut,
            &mut rows.bytes,
        );
    }
    trace::open_receiver(&mut run.out, settings, slot, rows.cut, &mut rows.bytes)
}
