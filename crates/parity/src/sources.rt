// The source symbols of a parity symbol, gathered from the sender's rows into a table of pairs.
ghost use Rattle.std.specs.Prelude.{◌≡◌, ◌+◌, ◌-◌, ◌%◌, ◌≤◌, ◌<◌, T, length};
ghost use Rattle.gathering.specs.Pairs.{pairs_of, Wide, gathered_of};
ghost use Rattle.code.specs.Settings.{accepted, k_of, n_of};
ghost use Rattle.protocol.specs.Lengths.{sender_len};
ghost use Rattle.parity.specs.Sources.{source_in, source_of};

use buffers::message_len;
use code::Settings;
use gathering::{Source, pair_up};

// The row after one of the ring, by a test: a remainder at every row would cost a division.
fn next_row(row: usize, ring: usize) -> usize
    requires { row < ring }
    ensures { result ≡ (row + 1) % ring }
{
    let next = row + 1;
    if next == ring { 0 } else { next }
}

// Source symbol i of every lane, in a row of the ring; zeros past the last one.
fn source(s: Settings, row: usize, i: usize) -> Source
    requires { T (accepted s) × (row < n_of s - 1) }
    ensures { result ≡ source_in s row i }
{
    if i < s.sources() {
        Source {
            start: row * message_len(s) + i * s.lanes as usize,
            keep: 255,
        }
    } else {
        Source { start: 0, keep: 0 }
    }
}

// Gathers the k source symbols of every lane that position p is the sum of, two a turn.
// Source symbol i is of the message sent p - i slots before the slot due, so that each stands a row further on in the ring. The `gather`
// of shares looks each source up; here a row leads to the next, and a closure for both would carry that row and its bound.
#[tactic(auto, using(code::proofs::Shape::shape))]
pub(crate) fn gather(pairs: &mut [[u8; 64]; 32], rows: &[u8], s: Settings, due: u32, p: usize)
    requires { T (accepted s) × (length rows.now ≡ sender_len s) × (k_of s ≤ p) × (p < n_of s) × Wide pairs.old }
    ensures { pairs.new
        ≡ gathered_of rows.now s.lanes (source_of s due p) (pairs_of (k_of s)) pairs.old }
{
    let lanes = s.lanes as usize;
    let ring = s.symbols() - 1;
    let mut row = (due as usize + ring - p) % ring;
    let count = s.pairs();
    for j in 0..count {
        let next = next_row(row, ring);
        let first = source(s, row, j * 2);
        let second = source(s, next, j * 2 + 1);
        pair_up(pairs, j, rows, lanes, first, second);
        row = next_row(next, ring);
    }
}
