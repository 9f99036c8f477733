// Document 01's figures 9 to 12, run on both ends with one lane and then with three, document 02's example of a short window, and two lanes
// whose parity differs: a line for each, in which every lent byte begins as 7. Of the three lanes, lane 1 has α times the messages of
// lane 0, and lane 2 has them a slot later. The lengths of rows are written out here, worked out by hand: a wrong one would be refused.
#![tactic(auto)]

ghost use Rattle.std.specs.Prelude.{◌≡◌, ◌≤◌};

use code::Settings;
use output::Output;
use protocol::{Cause, Told};
use std::io::{self, BufWriter, Write};

// The messages of slots 0 to 5, by symbols. Behind those of fewer lanes than three stand zeros.
type Messages = [[u8; 6]; 6];

// The frames of slots 0 to 5. Behind those of fewer lanes than three stand bytes that are not lent.
type Frames = [[u8; 26]; 6];

// The card's settings with so many lanes; k is 2 and n is 4.
fn settings(lanes: u8) -> Settings
    ensures { result.lanes ≡ lanes }
{
    Settings {
        window: 4,
        delay: 3,
        burst: 2,
        scattered: 2,
        lanes,
    }
}

// A window of three slots, with this T; k is 2 and n is 4 where T is 2 or more.
fn short(delay: u8) -> Settings
    ensures { result.lanes ≡ 1 }
{
    Settings {
        window: 3,
        delay,
        burst: 2,
        scattered: 1,
        lanes: 1,
    }
}

// The bytes behind so many, in hex.
fn print_bytes<W: Write>(out: &mut Output<W>, bytes: &[u8], skipped: usize) {
    for byte in bytes.iter().skip(skipped) {
        out.put_hex(*byte);
    }
}

// A reply, and the message that is whole.
fn print_reply<W: Write>(out: &mut Output<W>, reply: Result<Told, Cause>, message: &[u8]) {
    trace::reply(out, reply);
    if let Ok(Told::Whole) = reply {
        out.put(b" ");
        print_bytes(out, message, 0);
    }
}

// The messages of so many lanes: of one, lane 0 of three; of two, lane 0 and one that has its first message only.
fn messages(lanes: usize) -> Messages {
    let none = [0; 6];
    match lanes {
        1 => [
            [1, 0, 0, 0, 0, 0],
            [0, 1, 0, 0, 0, 0],
            none,
            none,
            none,
            none,
        ],
        2 => [
            [1, 1, 0, 0, 0, 0],
            [0, 0, 1, 0, 0, 0],
            none,
            none,
            none,
            none,
        ],
        _ => [
            [1, 16, 0, 0, 0, 0],
            [0, 0, 1, 1, 16, 0],
            [0, 0, 0, 0, 0, 1],
            none,
            none,
            none,
        ],
    }
}

// The sends of slots 0 to 5. Of each frame the bytes behind so many are printed.
fn send_all<W: Write>(
    out: &mut Output<W>,
    s: Settings,
    skipped: usize,
    rows: &mut [u8],
    frames: &mut Frames,
)
    requires { s.lanes ≤ 3 }
{
    let lanes = s.lanes as usize;
    let messages = messages(lanes);
    let mut sender = sender::open(s, rows).state;
    for (message, frame) in messages.iter().zip(frames.iter_mut()) {
        let lent = &mut frame[..14 + 4 * lanes];
        sender = sender::send(sender, rows, &message[..2 * lanes], lent).state;
        out.put(b" ");
        print_bytes(out, lent, skipped);
    }
}

// A receiver that is opened and hears slots 0 to 5, but for the first ones, which are lost; in each slot the frame of another sender, if
// there is one, comes first.
fn report_all<W: Write>(
    out: &mut Output<W>,
    s: Settings,
    lost: usize,
    rows: &mut [u8],
    frames: &Frames,
    others: Option<&Frames>,
    message: &mut [u8],
)
    requires { s.lanes ≤ 3 }
{
    let size = 14 + 4 * s.lanes as usize;
    let mut receiver = receiver::open(s, 0, rows).state;
    for (slot, frame) in frames.iter().enumerate() {
        if let Some(others) = others {
            let reported = receiver::heard(receiver, rows, &others[slot][..size], message);
            print_reply(out, reported.answer, message);
            receiver = reported.state;
        }
        let reported = if slot < lost {
            receiver::loss(receiver, rows, message)
        } else {
            receiver::heard(receiver, rows, &frame[..size], message)
        };
        print_reply(out, reported.answer, message);
        receiver = reported.state;
    }
}

// The buffers of a receiver, whose rows have this length, and its reports.
fn play<W: Write>(
    out: &mut Output<W>,
    s: Settings,
    size: usize,
    lost: usize,
    frames: &Frames,
    others: Option<&Frames>,
)
    requires { (s.lanes ≤ 3) × (size ≤ 65) }
{
    let mut rows = [7; 65];
    let mut message = [7; 6];
    let end = 2 * s.lanes as usize;
    report_all(
        out,
        s,
        lost,
        &mut rows[..size],
        frames,
        others,
        &mut message[..end],
    );
}

// The figures with the card's settings, a receiver's rows having this length: 10 and 11 are of lost frames; in 12, lane 0 of the third
// symbol of slot 2 becomes 2.
fn figures<W: Write>(out: &mut Output<W>, s: Settings, size: usize)
    requires { (s.lanes ≤ 3) × (size ≤ 65) }
{
    let lanes = s.lanes as usize;
    let mut frames = [[7; 26]; 6];
    let mut remembered = [7; 18];
    out.put(b"9");
    send_all(out, s, 14, &mut remembered[..6 * lanes], &mut frames);
    out.put(b"\n10");
    play(out, s, size, 2, &frames, None);
    out.put(b"\n11");
    play(out, s, size, 3, &frames, None);
    out.put(b"\n12");
    frames[2][14 + 2 * lanes] = 2;
    play(out, s, size, 0, &frames, None);
    out.put(b"\n");
}

// The whole frames of a sender in the short window.
fn sent<W: Write>(out: &mut Output<W>, delay: u8) -> Frames {
    let mut frames = [[7; 26]; 6];
    let mut remembered = [7; 6];
    write!(out, "sent {delay}");
    send_all(out, short(delay), 0, &mut remembered, &mut frames);
    out.put(b"\n");
    frames
}

// What a receiver there makes of these frames, the first two of which are lost, and of another sender's.
fn heard<W: Write>(out: &mut Output<W>, delay: u8, frames: &Frames, others: &Frames) {
    write!(out, "heard {delay}");
    play(out, short(delay), 20, 2, frames, Some(others));
    out.put(b"\n");
}

// Document 02's example: T = 9 beside T = 2.
fn short_window<W: Write>(out: &mut Output<W>) {
    let nine = sent(out, 9);
    let two = sent(out, 2);
    heard(out, 9, &nine, &two);
    heard(out, 2, &two, &nine);
}

// Two lanes that differ: the whole frames, and what is made of them with all heard, and without the first two.
fn differing<W: Write>(out: &mut Output<W>) {
    let mut frames = [[7; 26]; 6];
    let mut remembered = [7; 12];
    out.put(b"sent");
    send_all(out, settings(2), 0, &mut remembered, &mut frames);
    out.put(b"\nheard all");
    play(out, settings(2), 45, 0, &frames, None);
    out.put(b"\nheard without 0 and 1");
    play(out, settings(2), 45, 2, &frames, None);
    out.put(b"\n");
}

fn main(rt: HostRuntime) -> io::Result<()> {
    let mut output = Output::new(BufWriter::new(rt.alloc(), io::writer(&rt))?);
    let out = &mut output;
    figures(out, settings(1), 25);
    out.put(b"in three lanes\n");
    figures(out, settings(3), 65);
    out.put(b"in a window of three slots\n");
    short_window(out);
    out.put(b"in two lanes that differ\n");
    differing(out);
    output.end()
}
