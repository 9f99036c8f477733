// The steps of a player that is fed from a pair.
ghost use Rattle.std.specs.Prelude.{◌≡◌, ◌+◌, ◌*◌, ◌≤◌, length};
ghost use Rattle.aerials.specs.Pair.{pair_cause};
ghost use Rattle.reporting.specs.Outcomes.{outcome};
ghost use Rattle.pairplay.specs.Steps.{pair_step_of};

use joiner::{next_slot, part};
use progress::{Player, Progress};
use reporting::at_frame;

// One step: a report of the slot due, by what the pair lends for the next slot that either recording has, and its line.
pub fn step<'a>(
    p: Player,
    first: &'a [u8],
    second: &'a [u8],
    rows: &mut [u8],
    message: &mut [u8],
    line: &mut [u8],
) -> Progress
    requires { (pair_cause p.receiver.settings first.now second.now ≡ 0) × (18 + 2 * length message.old ≤ length line.old) }
    ensures { outcome result rows.new message.new line.new
        ≡ pair_step_of p first.now second.now rows.old message.old line.old }
{
    let s = p.receiver.settings;
    match next_slot(s, first, second, p.receiver.due) {
        Some(slot) => {
            let frame = part(s, first, second, slot);
            at_frame(p, frame, p.offset, rows, message, line)
        }
        None => Progress {
            player: p,
            len: 0,
            over: true,
        },
    }
}
