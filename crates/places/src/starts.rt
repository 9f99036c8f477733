// Where the rows and the symbols of the codewords that start at slot t - i stand, and the flags and roles that elimination starts from.
ghost use Rattle.std.specs.Prelude.{cond, ◌≡◌, ◌+◌, ◌≤◌, ◌<◌, T, ltb};
ghost use Rattle.code.specs.Settings.{accepted, k_of};
ghost use Rattle.elimination.specs.Elimination.{first_roles, known_in};
ghost use Rattle.protocol.specs.Lengths.{row_len, receiver_len};
ghost use Rattle.protocol.specs.Verdict.{row_at};
ghost use Rattle.places.specs.Places.{Ready, places_of, flags_of, parity_flags};

use crate::known::is_known;
use buffers::{receiver_len, row_count, row_len};
use code::Settings;

// Where each position's symbol stands, the bytes of all lanes in its row; whether it is known, if it is a parity position; and the roles
// of the rows at the start. A flag stays a byte, 1 where it is known: `left_flag` and `left_from` speak of flags of any number.
#[derive(Clone, Copy)]
pub struct Located {
    pub places: [usize; 16],
    pub flags: [u8; 16],
    pub roles: [u8; 16],
}

// Where the row of slot t - i begins. Here and below, the settings, the rows and the slots stay parameters with their facts as clauses: a
// struct of them would carry each fact as a ghost field, that rows hold bytes too, and be opened in every definition.
fn first_start(s: Settings, t: usize, i: usize) -> usize
    requires { T (accepted s) × (t < 4294967296) × (i < k_of s) }
    ensures { result ≡ row_at s t i 0 }
{
    let count = row_count(s);
    (t + count - i) % count * row_len(s)
}

// Where the row after another begins: at 0 again where the rows end.
fn next_start(s: Settings, start: usize) -> usize
    requires { T (accepted s) × (start + row_len s ≤ receiver_len s) }
    ensures { result ≡ cond (ltb (start + row_len s) (receiver_len s)) (start + row_len s) 0 }
{
    let next = start + row_len(s);
    if next < receiver_len(s) { next } else { 0 }
}

// The symbols of the codewords that start at slot t - i, by the rows of the slots below `end`: a known source is the pivot of its own
// row, and a known parity position has a flag. They are written where they are lent: returned they would be copied twice for each symbol.
pub fn locate(s: Settings, rows: &[u8], end: usize, t: usize, i: usize, located: &mut Located)
    requires { Ready s rows.now t × (i < k_of s) }
    ensures places { located.new.places ≡ places_of s t i }
    ensures flags { located.new.flags ≡ parity_flags s (flags_of s rows.now end t i) }
    ensures roles { located.new.roles ≡ first_roles s (known_in s (flags_of s rows.now end t i)) }
{
    located.places = [0; 16];
    located.flags = [0; 16];
    located.roles = [16; 16];
    let mut start = first_start(s, t, i);
    let mut offset = 1;
    for p in 0..s.symbols() {
        located.places[p] = start + offset;
        if is_known(rows, end, t + p, start) {
            if p < s.sources() {
                located.roles[p] = p as u8;
            } else {
                located.flags[p] = 1;
            }
        }
        start = next_start(s, start);
        offset += s.lanes as usize;
    }
}
