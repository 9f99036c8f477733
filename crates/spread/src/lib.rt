// The rows of the spread form: products over zero points, at all positions at once.
#![tactic(auto)]

ghost use Rattle.std.specs.Prelude.{◌≡◌, get_or};
ghost use Rattle.galois.specs.Narrow.{◌⊞◌, ◌⊠◌};
ghost use Rattle.galois.specs.Table.{table};
ghost use Rattle.code.specs.Matrix.{point, factor, gf16, product_row};

use gf16::Gf16;
use std::array;

// The m-th zero point of a row.
#[tactic(auto, unfolding(code::specs::Matrix::point))]
fn zero_point(scattered: u8, row: u8, m: u8) -> u16
    ensures { result ≡ point scattered row m }
{
    if m < row {
        m as u16
    } else {
        m as u16 + scattered as u16
    }
}

// A position plus a point, in narrow numbers: 0 where either is above 15.
#[tactic(auto, using(galois::proofs::NarrowField::plus_above))]
fn shifted(position: u8, point: u16) -> Gf16
    ensures { result.0 ≡ position ⊞ point }
{
    if 15 < point {
        Gf16(0)
    } else {
        Gf16(position).sum(Gf16(point as u8))
    }
}

// Products at positions 0 to 15, each times the factor of one more point. The division, the same at every position, is done once.
fn with_point(products: [Gf16; 16], row: u8, point: u16) -> [Gf16; 16]
    ensures { result ≡ table 16 (λ j. gf16 ((get_or products j (gf16 0)).0 ⊠ factor row j point)) }
{
    let divided = Gf16(1).quotient(shifted(row, point));
    array::from_fn(|j| products[j].product(shifted(j as u8, point).product(divided)))
}

// The products over the first zero points of a row, as many as are asked for: 1 over none, and then a point more each time.
pub fn spread_row(scattered: u8, row: u8, points: u8) -> [Gf16; 16]
    ensures { result ≡ product_row scattered row points }
{
    let mut products = [Gf16(1); 16];
    for m in 0..points {
        // The checker does not cover a call whose result is laid over an array that stands already, so it gets a name first.
        let next = with_point(products, row, zero_point(scattered, row, m));
        products = next;
    }
    products
}
