// Whether no word fits what arrived in some lane, and whether the fitting words differ in a symbol.
#![tactic(auto)]

ghost use Rattle.std.specs.Prelude.{◌≡◌, ◌<◌, ◌≤◌};
ghost use Rattle.code.specs.Settings.{k_of, n_of};
ghost use Rattle.elimination.specs.Elimination.{differs};
ghost use Rattle.clashes.specs.Clashes.{ParityOnly, sum_clash, sums_clash};

use code::Settings;
use elimination::Reduced;
use shares::Vectors;

// Whether in some lane the weighted sum of the vectors at position q is not the byte that arrived.
fn clashing_at(vectors: &Vectors, rows: &[[u8; 16]; 16], q: usize) -> bool
    requires { q < n_of vectors.now.words.s }
    ensures { result
        ≡ sum_clash vectors.now.words.s rows.now vectors.now.table.now vectors.now.words.places.now
        vectors.now.words.bytes.now q }
{
    let sum = vectors.sum_at(rows, q);
    let lanes = vectors.words.s.lanes as usize;
    let arrived = vectors.words.symbol(q);
    &sum[..lanes] != arrived
}

// Whether some lane clashes at a known position, where no source has a flag.
pub fn clashing(vectors: &Vectors, rows: &[[u8; 16]; 16], flags: &[u8; 16]) -> bool
    requires { ParityOnly vectors.now.words.s flags.now }
    ensures { result
        ≡ sums_clash vectors.now.words.s rows.now vectors.now.table.now flags.now vectors.now.words.places.now
        vectors.now.words.bytes.now }
{
    let words = vectors.words;
    for q in words.s.sources()..words.s.symbols() {
        if flags[q] == 1 && clashing_at(vectors, rows, q) {
            return true;
        }
    }
    false
}

// Whether some row that is no pivot is not 0 at position i.
pub fn differing(s: Settings, reduced: &Reduced, i: usize) -> bool
    requires { (i < 16) × (k_of s ≤ 16) }
    ensures { result ≡ differs s reduced.now i }
{
    (0..s.sources()).any(
        |r|
            requires { (r < 16) × (i < 16) }
        { reduced.roles[r] == 16 && reduced.rows[r][i] != 0 },
    )
}
