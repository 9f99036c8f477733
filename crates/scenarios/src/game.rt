// Both ends with their buffers, and a slot of them.
use crate::buffer::Buffer;
use crate::events::Event;
use crate::faults::Faults;
use crate::{Run, events, faults, openings};
use code::Settings;
use cuts::Call;
use drawing::Random;
use protocol::{Receiver, Sender};
use std::io::Write;

// The settings, both ends and their buffers; how many losses of a burst are left over, and whether rows are drawn behind the receiver's
// back, which is so of one kind of scenario, whatever else it is.
#[derive(Drop)]
pub(crate) struct Game {
    pub(crate) settings: Settings,
    pub(crate) sender: Sender,
    pub(crate) receiver: Receiver,
    pub(crate) sent: Buffer<32768>,
    pub(crate) received: Buffer<32768>,
    pub(crate) frame: Buffer<1040>,
    pub(crate) buffer: Buffer<1040>,
    pub(crate) left: usize,
    pub(crate) lent: bool,
}

// The faults of a send before the true one: none, seven times of eight.
fn send_faults(random: &mut Random) -> Option<Faults> {
    (random.below(8) == 0).then(|| Faults::drawn(7, random))
}

impl Game {
    // The buffers drawn, and both ends opened in them, the receiver at this slot.
    pub(crate) fn opened<W: Write>(run: &mut Run<W>, s: Settings, slot: u32, lent: bool) -> Game {
        let mut sent = Buffer::drawn(buffers::sender_len(s), &mut run.random);
        let mut received = Buffer::drawn(buffers::receiver_len(s), &mut run.random);
        let frame = Buffer::drawn(buffers::frame_len(s), &mut run.random);
        let buffer = Buffer::drawn(buffers::message_len(s), &mut run.random);
        Game {
            settings: s,
            sender: openings::of_sender(run, s, &mut sent),
            receiver: openings::of_receiver(run, s, slot, &mut received),
            sent,
            received,
            frame,
            buffer,
            left: 0,
            lent,
        }
    }

    // So many slots.
    pub(crate) fn rounds<W: Write>(&mut self, run: &mut Run<W>, count: usize) {
        for _ in 0..count {
            self.round(run);
        }
    }

    // A send and what happens to its frame.
    fn round<W: Write>(&mut self, run: &mut Run<W>) {
        self.sending(run);
        self.touch_rows(&mut run.random);
        let event = events::draw(self.left, self.settings.burst, &mut run.random);
        self.receiving(run, event);
    }

    // ---- sends

    // The send of the slot due, with nothing wrong.
    fn exact_send(&self) -> Call {
        Call {
            settings: self.sender.settings,
            opening: 0,
            due: self.sender.due,
            rows: self.sent.cut,
            first: self.buffer.cut,
            second: self.frame.cut,
        }
    }

    // A message, drawn.
    fn message(&self, random: &mut Random) -> Buffer<1040> {
        let mut message = Buffer {
            bytes: [0; 1040],
            cut: self.buffer.cut,
        };
        message.draw(random);
        message
    }

    fn send<W: Write>(&mut self, run: &mut Run<W>, call: Call, message: &Buffer<1040>) {
        let (rows, frame) = (&mut self.sent.bytes, &mut self.frame.bytes);
        self.sender = trace::send(&mut run.out, call, rows, &message.bytes, frame);
    }

    // The messages of up to 16 slots before the start, drawn and sent.
    pub(crate) fn send_before<W: Write>(&mut self, run: &mut Run<W>, start: u32) {
        let count = start.min(16);
        self.sender.due = start - count;
        for _ in 0..count {
            let message = self.message(&mut run.random);
            self.send(run, self.exact_send(), &message);
        }
    }

    // A message is drawn and sent, at times after a send with faults.
    fn sending<W: Write>(&mut self, run: &mut Run<W>) {
        let exact = self.exact_send();
        let message = self.message(&mut run.random);
        if let Some(faults) = send_faults(&mut run.random) {
            let call = faults::wrong(exact, 3, faults, &mut run.random);
            self.send(run, call, &message);
        }
        self.send(run, exact, &message);
    }

    // ---- reports

    // A report with faults, if there is one, and the true one.
    fn receiving<W: Write>(&mut self, run: &mut Run<W>, event: Event) {
        let before = self.receiver;
        if let Some(faults) = event.before {
            self.report(run, before, event.lost, faults);
        }
        self.report(run, before, event.lost, event.last);
        self.left = event.left;
    }

    // The report of a lost frame, or of a changed copy of a heard one, from this receiver on.
    fn report<W: Write>(&mut self, run: &mut Run<W>, before: Receiver, lost: bool, faults: Faults) {
        let exact = Call {
            settings: before.settings,
            opening: before.opening,
            due: before.due,
            rows: self.received.cut,
            first: self.buffer.cut,
            second: self.buffer.cut,
        };
        let (rows, buffer) = (&mut self.received.bytes, &mut self.buffer.bytes);
        if lost {
            let call = faults::wrong(exact, 2, faults, &mut run.random);
            self.receiver = trace::loss(&mut run.out, call, rows, buffer);
        } else {
            let exact = Call {
                first: self.frame.cut,
                ..exact
            };
            let call = faults::wrong(exact, 3, faults, &mut run.random);
            let mut copy = self.frame.bytes;
            faults::change(&mut copy, before.settings, faults, &mut run.random);
            self.receiver = trace::heard(&mut run.out, call, rows, &copy, buffer);
        }
    }
}
