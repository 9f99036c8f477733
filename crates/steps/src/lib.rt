// The steps of a player: each makes one report, and writes at most one line over the start of a lent one. Document 01, "Playing a
// recording".
#![tactic(auto)]

ghost use Rattle.std.specs.Prelude.{◌≡◌, ◌+◌, ◌*◌, ◌≤◌, length};
ghost use Rattle.reporting.specs.Outcomes.{outcome, printed_on};
ghost use Rattle.steps.specs.Steps.{begin_of, act_of};

use buffers::{clear, frame_len};
use code::Settings;
use progress::{Player, Progress, stopped};
use protocol::Cause;
use recording::{Found, next_frame};
use reporting::at_frame;

// A player at the start of a recording with these settings.
pub fn begin(s: Settings, rows: &mut [u8], message: &mut [u8]) -> Player
    ensures { record { player = result; rows = rows.new; message = message.new }
        ≡ begin_of s rows.old message.old }
{
    let opened = receiver::open(s, 0, rows);
    clear(message);
    Player {
        receiver: opened.state,
        offset: 0,
    }
}

// One step: a report, and its line. Rows, message and line stay three parameters: the line alone moves on from step to step, and
// `printed_on` speaks of each.
pub fn step(
    p: Player,
    recording: &[u8],
    rows: &mut [u8],
    message: &mut [u8],
    line: &mut [u8],
) -> Progress
    requires { 18 + 2 * length message.old ≤ length line.old }
    ensures { outcome result rows.new message.new line.new
        ≡ printed_on line.old (act_of p recording.now rows.old message.old) }
{
    match next_frame(recording, p.offset, frame_len(p.receiver.settings)) {
        Found::End => Progress {
            player: p,
            len: 0,
            over: true,
        },
        Found::Part => stopped(p, Cause::BadLength, line),
        Found::Frame { start, end } => {
            at_frame(p, &recording[start..end], end, rows, message, line)
        }
    }
}
