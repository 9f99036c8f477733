// The parts of a line. Each but the first has a space before it. Nothing lent is changed.
ghost use Rattle.std.specs.Prelude.{◌≡◌, ◌<◌, OnOk, OnErr};
ghost use Rattle.std.specs.Io.KnownBytes.{Appends};
ghost use Rattle.trace.specs.Line.{settings_text, reply_text};

use code::Settings;
use output::Output;
use protocol::{Cause, Outcome, Receiver, Sender, Told};
use std::io::Write;

// The five settings.
pub fn settings<W: Write>(out: &mut Output<W>, s: Settings)
    ensures written { OnOk out.new.written (Appends (W.contents out.old.writer) (W.contents out.new.writer)
        (settings_text s)) }
    ensures ended { OnErr out.old.written (out.new ≡ out.old) }
{
    let Settings {
        window,
        delay,
        burst,
        scattered,
        lanes,
    } = s;
    write!(out, " {window} {delay} {burst} {scattered} {lanes}");
}

// A sender's state: the settings and the slot due.
fn sender_state<W: Write>(out: &mut Output<W>, x: Sender) {
    settings(out, x.settings);
    write!(out, " {}", x.due);
}

// A receiver's: the settings, the opening slot and the slot due.
fn receiver_state<W: Write>(out: &mut Output<W>, x: Receiver) {
    settings(out, x.settings);
    write!(out, " {} {}", x.opening, x.due);
}

// The outcome of an opening or a send.
fn answer<W: Write>(out: &mut Output<W>, answer: Result<(), Cause>) {
    match answer {
        Ok(()) => out.put(b" ok"),
        Err(cause) => write!(out, " {}", u32::from(cause)),
    }
}

// The outcome of a report.
pub fn reply<W: Write>(out: &mut Output<W>, reply: Result<Told, Cause>)
    ensures written { OnOk out.new.written (Appends (W.contents out.old.writer) (W.contents out.new.writer)
        (reply_text reply)) }
    ensures ended { OnErr out.old.written (out.new ≡ out.old) }
{
    match reply {
        Err(cause) => write!(out, " {}", u32::from(cause)),
        Ok(Told::NoneYet) => out.put(b" none"),
        Ok(Told::Whole) => out.put(b" whole"),
        Ok(Told::Lost) => out.put(b" lost"),
        Ok(Told::Clash) => out.put(b" clash"),
    }
}

// The sum of bytes, in which a byte counts once for itself and once for each byte before it: from the end on, the sum so far is added for
// each byte.
fn sum<W: Write>(out: &mut Output<W>, bytes: &[u8]) {
    let mut tail: u64 = 0;
    let mut total: u64 = 0;
    for byte in bytes.iter().rev() {
        tail = (tail + u64::from(*byte)) % 65521;
        total = (total + tail) % 65521;
    }
    write!(out, " {total}");
}

// The line of an opening of the sender. That of the receiver differs in two words, its name and its state, which a trait would say at more
// length.
pub(crate) fn opened_sender<W: Write>(
    out: &mut Output<W>,
    opened: Outcome<(), Sender>,
    rows: &[u8],
) {
    out.put(b"open-sender");
    answer(out, opened.answer);
    sender_state(out, opened.state);
    sum(out, rows);
    out.put(b"\n");
}

// The line of an opening of the receiver.
pub(crate) fn opened_receiver<W: Write>(
    out: &mut Output<W>,
    opened: Outcome<(), Receiver>,
    rows: &[u8],
) {
    out.put(b"open-receiver");
    answer(out, opened.answer);
    receiver_state(out, opened.state);
    sum(out, rows);
    out.put(b"\n");
}

// The line of a send.
pub(crate) fn sent<W: Write>(
    out: &mut Output<W>,
    sent: Outcome<(), Sender>,
    frame: &[u8],
    rows: &[u8],
) {
    out.put(b"send");
    answer(out, sent.answer);
    sender_state(out, sent.state);
    sum(out, frame);
    sum(out, rows);
    out.put(b"\n");
}

// The line of a report, from its first word on.
pub(crate) fn reported<W: Write>(
    out: &mut Output<W>,
    word: &[u8],
    r: Outcome<Told, Receiver>,
    buffer: &[u8],
    rows: &[u8],
) {
    out.put(word);
    reply(out, r.answer);
    receiver_state(out, r.state);
    sum(out, buffer);
    sum(out, rows);
    out.put(b"\n");
}
