// Playing a recording: a lent buffer is filled with the lines of steps, one after another. Document 01, "Playing a recording".
#![tactic(auto)]

ghost use Rattle.std.specs.Prelude.{◌≡◌};
ghost use Rattle.reporting.specs.Outcomes.{outcome};
ghost use Rattle.player.specs.Filling.{filled_of};

use lines::has_room;
use progress::{Player, Progress};
use steps::step;

// Plays on until the longest line may not fit into what is left of the buffer, or the recording is over.
pub fn fill(
    p: Player,
    recording: &[u8],
    rows: &mut [u8],
    message: &mut [u8],
    out: &mut [u8],
) -> Progress
    ensures { outcome result rows.new message.new out.new
        ≡ filled_of p recording.now rows.old message.old out.old }
{
    let mut q = p;
    let mut at: usize = 0;
    while has_room(out.len() - at, message.len()) {
        let stepped = step(q, recording, rows, message, &mut out[at..]);
        q = stepped.player;
        at += stepped.len;
        if stepped.over {
            return Progress {
                player: q,
                len: at,
                over: true,
            };
        }
    }
    Progress {
        player: q,
        len: at,
        over: false,
    }
}
