// The vectors that the pivots' rows are multiplied by, the L bytes at each pivot's position, gathered in pairs; and their weighted sums.
#![tactic(auto)]

mod codewords;
mod paired;

ghost use Rattle.std.specs.Prelude.{◌≡◌, ◌<◌, T};
ghost use Rattle.gathering.specs.Pairs.{pairs_of, Wide, Paired, gathered_of};
ghost use Rattle.vectors.specs.Weighted.{weighted_of};
ghost use Rattle.code.specs.Settings.{accepted, k_of, n_of};
ghost use Rattle.shares.specs.Shares.{source_of};

use code::Settings;
pub use codewords::Codewords;
use gathering::{Source, pair_up};
pub use paired::Vectors;
use vectors::weighted;

// The bytes at the position of row r's pivot; zeros for a row that is no pivot, and past the k rows.
fn source(words: &Codewords, roles: &[u8; 16], r: usize) -> Source
    ensures { result ≡ source_of words.now.s roles.now words.now.places.now r }
{
    let p = if r < words.s.sources() {
        roles[r] as usize
    } else {
        16
    };
    if p < words.s.symbols() {
        Source {
            start: words.places[p],
            keep: 255,
        }
    } else {
        Source {
            start: words.places[0],
            keep: 0,
        }
    }
}

// Puts the vectors of all rows, a pair at a time. The table is lent: returned it would be 2048 bytes that are copied.
pub fn gather(words: &Codewords, roles: &[u8; 16], pairs: &mut [[u8; 64]; 32])
    requires { Wide pairs.old }
    ensures { pairs.new
        ≡ gathered_of words.now.bytes.now words.now.s.lanes (source_of words.now.s roles.now words.now.places.now)
        (pairs_of (k_of words.now.s)) pairs.old }
{
    let lanes = words.s.lanes as usize;
    for j in 0..words.s.pairs() {
        let first = source(words, roles, j * 2);
        let second = source(words, roles, j * 2 + 1);
        pair_up(pairs, j, words.bytes, lanes, first, second);
    }
}

// The weighted sum of the vectors at position q, of any paired table.
pub fn sum_at(s: Settings, rows: &[[u8; 16]; 16], pairs: &[[u8; 64]; 32], q: usize) -> [u8; 64]
    requires { T (accepted s) × Paired (pairs_of (k_of s)) pairs.now × (q < n_of s) }
    ensures { result ≡ weighted_of rows.now q pairs.now (pairs_of (k_of s)) }
{
    weighted(rows, q, pairs, s.pairs())
}
