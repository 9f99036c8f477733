// The halves of the coefficients in a column, two in a byte, and the bits that they use. The count stays beside the array: loops over an
// array of a fixed length become vector code.
#![tactic(auto)]

ghost use Rattle.std.specs.Prelude.{◌≡◌, [], ℕ, ◌*◌, ◌/◌, ◌%◌, ◌<◌, ◌≤◌, get_or};
ghost use Rattle.halves.specs.Halves.{half_of, Under, bits_of};

// The halves of the coefficients in column q, two in a byte: that of vector 2j below that of vector 2j + 1. The unit is 1 for the low
// halves, and 16 for the high ones. The bytes behind the first `count` are 0.
pub fn pack_halves<const UNIT: u8>(rows: &[[u8; 16]; 16], q: usize, count: usize) -> [u8; 8]
    requires { (q < 16) × (count ≤ 8) × (0 < UNIT) }
    ensures halves { (i : ℕ) → i < count * 2 → half_of result i ≡ get_or (get_or rows.now i []) q 0 / UNIT % 16 }
    ensures rest { (j : ℕ) → count ≤ j → get_or result j 0 ≡ 0 }
{
    let mut out = [0u8; 8];
    for j in 0..count {
        out[j] = rows[2 * j][q] / UNIT % 16 + rows[2 * j + 1][q] / UNIT % 16 * 16;
    }
    out
}

// The bits that some of the first `count` bytes of halves has: no half of such a byte is above theirs. The other bytes are not read.
pub fn bits_used(halves: &[u8; 8], count: usize) -> u8
    requires { count ≤ 8 }
    ensures under { (j : ℕ) → j < count → Under (get_or halves.now j 0) result }
    ensures bits { result ≡ bits_of halves.now count }
{
    let mut bits: u8 = 0;
    for half in &halves[..count] {
        bits |= half;
    }
    bits
}
