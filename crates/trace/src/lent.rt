// The calls, and the line of each. A buffer has zeros behind the exact length of what it is for: how many bytes at its end are not lent
// makes a thing of exact length, or one longer or shorter by one. Each buffer stands beside its cut, as in the definitions of cuts.
ghost use Rattle.std.specs.Prelude.{◌≡◌};
ghost use Rattle.cuts.specs.Cuts.{open_sender_cut, open_receiver_cut, send_cut, heard_cut, loss_cut};

use crate::print;
use code::Settings;
use cuts::{Call, end};
use ends::{receiver_at, sender_at};
use output::Output;
use protocol::{Receiver, Sender};
use std::io::Write;

// An opening of the sender.
pub fn open_sender<W: Write>(
    out: &mut Output<W>,
    s: Settings,
    cut: usize,
    rows: &mut [u8],
) -> Sender
    ensures { record { sender = result; rows = rows.new } ≡ open_sender_cut s cut rows.old }
{
    let rows_end = end(rows.len(), cut);
    let opened = sender::open(s, &mut rows[0..rows_end]);
    print::opened_sender(out, opened, rows);
    opened.state
}

// An opening of the receiver at this slot.
pub fn open_receiver<W: Write>(
    out: &mut Output<W>,
    s: Settings,
    slot: u32,
    cut: usize,
    rows: &mut [u8],
) -> Receiver
    ensures { record { receiver = result; rows = rows.new } ≡ open_receiver_cut s slot cut rows.old }
{
    let rows_end = end(rows.len(), cut);
    let opened = receiver::open(s, slot, &mut rows[0..rows_end]);
    print::opened_receiver(out, opened, rows);
    opened.state
}

// A send.
pub fn send<W: Write>(
    out: &mut Output<W>,
    call: Call,
    rows: &mut [u8],
    message: &[u8],
    frame: &mut [u8],
) -> Sender
    ensures { record { sender = result; rows = rows.new; frame = frame.new }
        ≡ send_cut call rows.old message.now frame.old }
{
    let x = sender_at(call.settings, call.due);
    let rows_end = end(rows.len(), call.rows);
    let message_end = end(message.len(), call.first);
    let frame_end = end(frame.len(), call.second);
    let sent = sender::send(
        x,
        &mut rows[0..rows_end],
        &message[0..message_end],
        &mut frame[0..frame_end],
    );
    print::sent(out, sent, frame, rows);
    sent.state
}

// The report of a frame.
pub fn heard<W: Write>(
    out: &mut Output<W>,
    call: Call,
    rows: &mut [u8],
    frame: &[u8],
    buffer: &mut [u8],
) -> Receiver
    ensures { record { receiver = result; rows = rows.new; buffer = buffer.new }
        ≡ heard_cut call rows.old frame.now buffer.old }
{
    let x = receiver_at(call.settings, call.opening, call.due);
    let rows_end = end(rows.len(), call.rows);
    let frame_end = end(frame.len(), call.first);
    let buffer_end = end(buffer.len(), call.second);
    let reported = receiver::heard(
        x,
        &mut rows[0..rows_end],
        &frame[0..frame_end],
        &mut buffer[0..buffer_end],
    );
    print::reported(out, b"frame", reported, buffer, rows);
    reported.state
}

// The report of a loss.
pub fn loss<W: Write>(
    out: &mut Output<W>,
    call: Call,
    rows: &mut [u8],
    buffer: &mut [u8],
) -> Receiver
    ensures { record { receiver = result; rows = rows.new; buffer = buffer.new }
        ≡ loss_cut call rows.old buffer.old }
{
    let x = receiver_at(call.settings, call.opening, call.due);
    let rows_end = end(rows.len(), call.rows);
    let buffer_end = end(buffer.len(), call.first);
    let reported = receiver::loss(x, &mut rows[0..rows_end], &mut buffer[0..buffer_end]);
    print::reported(out, b"loss", reported, buffer, rows);
    reported.state
}
