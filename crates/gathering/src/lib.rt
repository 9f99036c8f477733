// Sixteen vectors of lanes in eight pairs, each with zeros and with its sum: bytes put over the two vectors of a pair, and over their sum.
#![tactic(auto)]

ghost use Rattle.std.specs.Prelude.{◌≡◌, ◌+◌, ◌<◌, ◌≤◌, length};
ghost use Rattle.gathering.specs.Pairs.{Wide, paired_up};

use gf256::Gf256;

// Where the bytes of a vector begin, and the mask that they are taken under: 255, or 0 for zeros. With an Option of a place each lane would
// have a test, and the loop would be no vector code.
#[derive(Clone, Copy)]
pub struct Source {
    pub start: usize,
    pub keep: u8,
}

// `Wide` stays a clause: a proof does not learn how long the inner arrays of a lent array are.
// Puts the bytes of two sources over the first lanes of the two vectors of pair j, and their sums over the third.
pub fn pair_up(
    pairs: &mut [[u8; 64]; 32],
    j: usize,
    bytes: &[u8],
    lanes: usize,
    first: Source,
    second: Source,
)
    requires { (j < 8) × (lanes ≤ 64) × (first.start + lanes ≤ length bytes.now) × (second.start + lanes ≤ length bytes.now)
        × Wide pairs.old }
    ensures { pairs.new ≡ paired_up pairs.old j bytes.now lanes first second }
{
    let e = j * 2;
    for v in 0..lanes {
        let x = Gf256(bytes[first.start + v] & first.keep);
        let y = Gf256(bytes[second.start + v] & second.keep);
        pairs[e + 1][v] = x.0;
        pairs[e + 16][v] = y.0;
        pairs[e + 17][v] = x.sum(y).0;
    }
}
