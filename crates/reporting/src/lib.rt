// A step of a player at a frame: a refusal, or a report of the slot due, with its line over the start of a lent one.
#![tactic(auto)]

ghost use Rattle.std.specs.Prelude.{cond, ◌≡◌, ◌+◌, ◌*◌, ◌≤◌, length};
ghost use Rattle.reporting.specs.Acts.{frame_act};
ghost use Rattle.reporting.specs.Outcomes.{outcome, printed_on};

use frames::slot_of;
use progress::{Player, Progress, stopped, told};
use stops::stop_of;
use terminal::report_kept;

// Where the next frame starts: behind the one at the offset if that was heard.
fn offset_after(heard: bool, offset: usize, end: usize) -> usize
    ensures { result ≡ cond heard end offset }
{
    if heard { end } else { offset }
}

// A step at a frame that ends at this place of the recording: it stops the player, or the slot due is lost, or it is reported.
pub fn at_frame(
    p: Player,
    frame: &[u8],
    end: usize,
    rows: &mut [u8],
    message: &mut [u8],
    line: &mut [u8],
) -> Progress
    requires { (14 ≤ length frame.now) × (18 + 2 * length message.old ≤ length line.old) }
    ensures { outcome result rows.new message.new line.new
        ≡ printed_on line.old (frame_act p frame.now end rows.old message.old) }
{
    let x = p.receiver;
    if let Err(c) = stop_of(x, frame) {
        return stopped(p, c, line);
    }
    let heard = slot_of(frame) <= x.due;
    let r = report_kept(x, rows, heard, frame, message);
    told(x, offset_after(heard, p.offset, end), r, message, line)
}
