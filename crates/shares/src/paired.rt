// Codewords with a table of vectors in pairs, one vector for each row; the weighted sums of the vectors.
ghost use Rattle.std.specs.Prelude.{◌≡◌, ◌<◌};
ghost use Rattle.gathering.specs.Pairs.{pairs_of, Paired};
ghost use Rattle.vectors.specs.Weighted.{weighted_of};
ghost use Rattle.code.specs.Settings.{k_of, n_of};

use crate::codewords::Codewords;
use crate::sum_at;

// The table is lent: 2048 bytes that are not copied.
#[derive(Clone, Copy)]
pub struct Vectors<'a> {
    pub words: Codewords<'a>,
    pub table: &'a [[u8; 64]; 32],
    pub ghost paired: { Paired (pairs_of (k_of words.s)) table.now },
}

impl<'a> Vectors<'a> {
    // The weighted sum of the vectors at position q.
    pub fn sum_at(&self, rows: &[[u8; 16]; 16], q: usize) -> [u8; 64]
        requires { q < n_of self.now.words.s }
        ensures { result ≡ weighted_of rows.now q self.now.table.now (pairs_of (k_of self.now.words.s)) }
    {
        sum_at(self.words.s, rows, self.table, q)
    }
}
