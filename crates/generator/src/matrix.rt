// The generator matrix G: the spread form widened, with α times the identity in the rows below d.
ghost use Rattle.std.specs.Prelude.{◌≡◌, ◌<◌};
ghost use Rattle.galois.specs.Table.{table};
ghost use Rattle.code.specs.Settings.{k_of};
ghost use Rattle.code.specs.Matrix.{spread, entry};
ghost use Rattle.generator.specs.Matrix.{generator_of};

use code::Settings;
use gf16::Gf16;
use gf256::Gf256;
use spread::spread_row;
use std::array;

// The entry of G at a row and a position, from the spread form's: α at position T + i of a row i below d; 0 past the last position.
#[tactic(auto, unfolding(code::specs::Matrix::entry, code::specs::Matrix::alpha_entry, galois::specs::Byte::alpha))]
fn entry(s: Settings, row: usize, position: usize, number: Gf16) -> u8
    requires { (row < k_of s) × (number.0 ≡ spread s row position) }
    ensures { result ≡ entry s row position }
{
    let delay = s.effective_delay() as usize;
    if s.symbols() <= position {
        0
    } else if s.alpha_rows() <= row || position < delay {
        Gf256::widened(number).0
    } else if position == delay + row {
        Gf256::ALPHA.0
    } else {
        0
    }
}

// A row of G, from the product over all k - 1 zero points; zeros past the last row.
fn generator_row(s: Settings, row: usize) -> [u8; 16]
    ensures { result ≡ table 16 (λ j. entry s row j) }
{
    let sources = s.sources();
    if sources <= row {
        return [0; 16];
    }
    let products = spread_row(s.scattered, row as u8, (sources - 1) as u8);
    array::from_fn(|j| entry(s, row, j, products[j]))
}

// G, in an array of 16 rows, of which those past the last stay zeros. By array::from_fn the whole array would stand on the stack three
// times, and the archive's header promises less.
pub fn generator(s: Settings) -> [[u8; 16]; 16]
    ensures { result ≡ generator_of s }
{
    let mut rows = [[0; 16]; 16];
    for i in 0..s.sources().min(16) {
        rows[i] = generator_row(s, i);
    }
    rows
}
