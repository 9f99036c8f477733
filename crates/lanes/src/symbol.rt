// The bytes of a symbol that is whole: those that arrived, or the weighted sum of the vectors.
ghost use Rattle.std.specs.Prelude.{◌≡◌, ◌<◌, length, get_or};
ghost use Rattle.galois.specs.Table.{table};
ghost use Rattle.gathering.specs.Pairs.{pairs_of};
ghost use Rattle.vectors.specs.Weighted.{weighted_of};
ghost use Rattle.code.specs.Settings.{k_of, n_of};
ghost use Rattle.shares.specs.Shares.{lane_byte};

use copying::write_at;
use shares::{Codewords, Vectors};

// The L bytes at position i.
pub(crate) fn write_own(words: &Codewords, i: usize, out: &mut [u8])
    requires { (i < n_of words.now.s) × (length out.old ≡ words.now.s.lanes) }
    ensures { out.new ≡ table words.now.s.lanes (λ v. lane_byte words.now.s words.now.places.now words.now.bytes.now v i) }
{
    write_at(out, 0, words.symbol(i));
}

// The first L lanes of the weighted sum of the vectors at position i.
pub(crate) fn write_sum(vectors: &Vectors, rows: &[[u8; 16]; 16], i: usize, out: &mut [u8])
    requires { (i < n_of vectors.now.words.s) × (length out.old ≡ vectors.now.words.s.lanes) }
    ensures { out.new
        ≡ table vectors.now.words.s.lanes
        (λ v. get_or (weighted_of rows.now i vectors.now.table.now (pairs_of (k_of vectors.now.words.s))) v 0) }
{
    let sum = vectors.sum_at(rows, i);
    write_at(out, 0, &sum[..vectors.words.s.lanes as usize]);
}
