// How far a player is: what it keeps between two steps, and what a step tells on a lent line, a refusal or a report.
#![tactic(auto)]

ghost use Rattle.std.specs.Prelude.{◌≡◌, true, ◌+◌, ◌*◌, ◌≤◌, length};
ghost use Rattle.protocol.specs.Calls.{message_due};
ghost use Rattle.lines.specs.Text.{stop_line, line_of, written};
ghost use Rattle.progress.specs.Refusal.{refuses};

use lines::{write_line, write_stop};
use protocol::{Cause, Outcome, Receiver, Told};

// What a player keeps between two steps: the receiver, and where in the recording the next frame starts.
#[derive(Clone, Copy)]
pub struct Player {
    pub receiver: Receiver,
    pub offset: usize,
}

// How far playing on came: the player as it is then, and how many bytes of the lent buffer are printed, from its first on.
#[derive(Clone, Copy)]
pub struct Progress {
    pub player: Player,
    pub len: usize,
    // The recording is played, or a refusal has ended it. The lines of the last step count too, so it stays beside them, as in `Playing`.
    pub over: bool,
}

// The message that the report of the slot due tells of, if there is one.
#[tactic(auto, unfolding(protocol::specs::Calls::message_due))]
fn about(x: Receiver) -> u32
    ensures { result ≡ message_due x.settings x.due }
{
    x.due.saturating_sub(x.settings.effective_delay() as u32)
}

// A refusal is the last step.
pub fn stopped(p: Player, c: Cause, line: &mut [u8]) -> Progress
    requires { 18 ≤ length line.old }
    ensures player { result.player ≡ p }
    ensures len { result.len ≡ length (stop_line c) }
    ensures over { result.over ≡ true }
    ensures line { line.new ≡ written (stop_line c) line.old }
{
    let len = write_stop(c, line);
    Progress {
        player: p,
        len,
        over: true,
    }
}

// A report by this receiver, told on the line; the next frame starts at the offset, and a refused report is the last.
pub fn told(
    x: Receiver,
    offset: usize,
    r: Outcome<Told, Receiver>,
    message: &[u8],
    line: &mut [u8],
) -> Progress
    requires { 18 + 2 * length message.now ≤ length line.old }
    ensures player { result.player ≡ record { receiver = r.state; offset = offset } }
    ensures len { result.len ≡ length (line_of (message_due x.settings x.due) r.answer message.now) }
    ensures over { result.over ≡ refuses r.answer }
    ensures line { line.new
        ≡ written (line_of (message_due x.settings x.due) r.answer message.now) line.old }
{
    let len = write_line(about(x), r.answer, message, line);
    Progress {
        player: Player {
            receiver: r.state,
            offset,
        },
        len,
        over: r.answer.is_err(),
    }
}
