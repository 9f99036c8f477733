// What the sender remembers: the last n - 1 messages, in a ring of rows.
ghost use Rattle.std.specs.Prelude.{◌≡◌, ◌-◌, ◌%◌, T, length};
ghost use Rattle.code.specs.Settings.{accepted, n_of};
ghost use Rattle.protocol.specs.Lengths.{message_len, sender_len};
ghost use Rattle.protocol.specs.Rows.{put_row};

use code::Settings;
use copying::write_at;

// Writes the message of the slot due over its row.
#[tactic(auto, using(code::proofs::Shape::shape))]
pub fn remember(rows: &mut [u8], message: &[u8], s: Settings, due: u32)
    requires { T (accepted s) × (length rows.old ≡ sender_len s) × (length message.now ≡ message_len s) }
    ensures { rows.new ≡ put_row (message_len s) (due % (n_of s - 1)) message.now rows.old }
{
    let row = due as usize % (s.symbols() - 1);
    let start = row * message.len();
    write_at(rows, start, message);
}
