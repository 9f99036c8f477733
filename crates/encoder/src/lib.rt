// The systematic form: row i is the word whose first k symbols are the i-th unit.
#![tactic(auto)]

ghost use Rattle.std.specs.Prelude.{[], ◌≡◌, ◌+◌, ◌-◌, ◌≤◌, ◌<◌, get_or};
ghost use Rattle.galois.specs.Byte.{◌⊕◌, ◌⊗◌};
ghost use Rattle.galois.specs.Sum.{sum};
ghost use Rattle.galois.specs.Table.{table};
ghost use Rattle.generator.specs.Matrix.{band_end};
ghost use Rattle.code.specs.Word.{systematic_of};

use code::Settings;
use generator::generator;
use gf256::Gf256;
use std::array;

// A row with a multiple of another row added.
fn plus_multiple(row: [u8; 16], number: Gf256, other: [u8; 16]) -> [u8; 16]
    ensures { result ≡ table 16 (λ j. get_or row j 0 ⊕ number.0 ⊗ get_or other j 0) }
{
    array::from_fn(|j| Gf256(row[j]).sum(number.product(Gf256(other[j]))).0)
}

// Row i of G with its source symbols from i + 1 to an end cancelled, by the rows below it that are done.
fn cancelled(row: [u8; 16], done: &[[u8; 16]; 16], i: usize, end: usize) -> [u8; 16]
    requires { (i + 1 ≤ end) × (end ≤ 16) }
    ensures { result ≡ table 16 (λ p. get_or row p 0
        ⊕ sum (end - (i + 1)) (λ e. get_or row (i + 1 + e) 0 ⊗ get_or (get_or done.now (i + 1 + e) []) p 0)) }
{
    let mut out = row;
    for m in i + 1..end {
        // The checker does not cover a call whose result is laid over an array that stands already, so it gets a name first.
        let sum = plus_multiple(out, Gf256(row[m]), done[m]);
        out = sum;
    }
    out
}

// The end of the source symbols of row i of G that are not 0.
#[tactic(auto, unfolding(generator::specs::Matrix::band_end))]
fn band_end(s: Settings, i: usize) -> usize
    requires { i < 16 }
    ensures { result ≡ band_end s i }
{
    s.sources().min(i + s.scattered as usize)
}

// The systematic form, in an array of 16 rows; zeros for settings that are not accepted.
pub fn systematic(s: Settings) -> [[u8; 16]; 16]
    ensures { result ≡ systematic_of s }
{
    let mut rows = [[0u8; 16]; 16];
    if !s.accepted() {
        return rows;
    }
    let g = generator(s);
    for i in (0..s.sources()).rev() {
        rows[i] = cancelled(g[i], &rows, i, band_end(s, i));
    }
    rows
}
