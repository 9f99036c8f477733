// What an opening and a report write into the receiver's ring of rows. That the settings are accepted stays a clause: the definitions
// speak of settings, and a type of accepted ones would be opened in each.
#![tactic(auto)]

ghost use Rattle.std.specs.Prelude.{◌∷◌, ◌≡◌, ◌+◌, ◌*◌, ◌%◌, ◌≤◌, ◌<◌, T, length, drop, replicate};
ghost use Rattle.code.specs.Settings.{accepted};
ghost use Rattle.galois.specs.Table.{table};
ghost use Rattle.protocol.specs.Lengths.{frame_len, row_len, row_count, receiver_len};
ghost use Rattle.protocol.specs.Rows.{put_row};
ghost use Rattle.ring.specs.Bytes.{opened_byte};

use buffers::{row_count, row_len};
use code::Settings;
use copying::write_at;

// Byte q of rows of this size, those below row `lost` being zeros, and the others received zeros.
fn opened_byte(q: usize, size: usize, lost: u32) -> u8
    requires { 0 < size }
    ensures { result ≡ opened_byte size lost q }
{
    (lost as usize <= q / size && q % size == 0) as u8
}

// All of these rows.
pub fn write_opened(rows: &mut [u8], size: usize, lost: u32)
    requires { 0 < size }
    ensures { rows.new ≡ table (length rows.old) (opened_byte size lost) }
{
    for (q, byte) in rows.iter_mut().enumerate() {
        *byte = opened_byte(q, size, lost);
    }
}

// Where the row of the slot due starts. All of it lies within the rows.
fn row_start(s: Settings, due: u32) -> usize
    ensures start { result ≡ due % row_count s * row_len s }
    ensures within { result + row_len s ≤ receiver_len s }
{
    due as usize % row_count(s) * row_len(s)
}

// The row of the slot due, where its frame was heard: 1 and the body.
pub fn record_heard(rows: &mut [u8], frame: &[u8], s: Settings, due: u32)
    requires { T (accepted s) × (length rows.old ≡ receiver_len s) × (length frame.now ≡ frame_len s) }
    ensures { rows.new ≡ put_row (row_len s) (due % row_count s) (1 ∷ drop 14 frame.now) rows.old }
{
    let start = row_start(s, due);
    rows[start] = 1;
    write_at(rows, start + 1, &frame[14..]);
}

// The row of the slot due, where it was lost: zeros.
pub fn record_lost(rows: &mut [u8], s: Settings, due: u32)
    requires { T (accepted s) × (length rows.old ≡ receiver_len s) }
    ensures { rows.new ≡ put_row (row_len s) (due % row_count s) (replicate (row_len s) 0) rows.old }
{
    let start = row_start(s, due);
    rows[start..start + row_len(s)].fill(0);
}
