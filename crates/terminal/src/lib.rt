// The one receiver that a terminal keeps: it is lent to each report, which moves it on.
#![tactic(auto)]

ghost use Rattle.std.specs.Prelude.{◌≡◌};
ghost use Rattle.protocol.specs.TwoLists.{report_of};
ghost use Rattle.terminal.specs.Given.{report_in};

use protocol::{Cause, Outcome, Receiver, Told};

// A report by value: of a frame where `heard`, else of a loss, which has no frame to read. The frame stays beside `heard`: `report_in`,
// which the contracts cite, takes both. The lent form stands over this one, and `report_kept` over the lent form, so that it is what runs.
#[tactic(auto, unfolding(crate::specs::Given::report_in, protocol::specs::TwoLists::report_of))]
fn reported(
    x: Receiver,
    rows: &mut [u8],
    heard: bool,
    frame: &[u8],
    message: &mut [u8],
) -> Outcome<Told, Receiver>
    ensures { record { reply = result.answer; receiver = result.state; rows = rows.new; message = message.new }
        ≡ report_of x rows.old (report_in heard frame.now message.old) }
{
    if heard {
        receiver::heard(x, rows, frame, message)
    } else {
        receiver::loss(x, rows, message)
    }
}

// The same, with the receiver lent and moved on.
pub fn report(
    x: &mut Receiver,
    rows: &mut [u8],
    heard: bool,
    frame: &[u8],
    message: &mut [u8],
) -> Result<Told, Cause>
    ensures { record { reply = result; receiver = x.new; rows = rows.new; message = message.new }
        ≡ report_of x.old rows.old (report_in heard frame.now message.old) }
{
    let r = reported(*x, rows, heard, frame, message);
    *x = r.state;
    r.answer
}

// A receiver that is kept in a local and lent once: for callers whose state goes by value.
pub fn report_kept(
    x: Receiver,
    rows: &mut [u8],
    heard: bool,
    frame: &[u8],
    message: &mut [u8],
) -> Outcome<Told, Receiver>
    ensures { record { reply = result.answer; receiver = result.state; rows = rows.new; message = message.new }
        ≡ report_of x rows.old (report_in heard frame.now message.old) }
{
    let mut state = x;
    let answer = report(&mut state, rows, heard, frame, message);
    Outcome { answer, state }
}
