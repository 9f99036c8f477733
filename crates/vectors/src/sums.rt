// Weighted sums of the vectors of a table of pairs. The coefficients are taken bit by bit, so that a sum stays in registers; the halves of
// the two coefficients of a pair stand in one byte, so that two bits of it pick one entry of the pair.
ghost use Rattle.std.specs.Prelude.{◌≡◌, ℕ, ◌*◌, ◌/◌, ◌%◌, ◌^◌, ◌<◌, ◌≤◌, length, get_or};
ghost use Rattle.galois.specs.Byte.{◌⊕◌, ◌⊗◌};
ghost use Rattle.galois.specs.Sum.{sum};
ghost use Rattle.galois.specs.Table.{table};
ghost use Rattle.gathering.specs.Pairs.{Paired, vector_of};
ghost use Rattle.vectors.specs.Weighted.{weighted_of};
ghost use Rattle.halves.specs.Halves.{half_of, halves_sum};

use gf256::Gf256;
use halves::{bits_used, pack_halves};

// A lent table of vectors in pairs, of which the first `count` are filled.
#[derive(Clone, Copy)]
struct Pairs<'a> {
    table: &'a [[u8; 64]; 32],
    count: usize,
    ghost paired: { Paired count table.now },
}

// z times each lane.
fn double(sum: &mut [u8; 64])
    ensures { sum.new ≡ table 64 (λ v. 2 ⊗ get_or sum.old v 0) }
{
    for lane in sum.iter_mut() {
        *lane = Gf256(*lane).times_z().0;
    }
}

// Adds a vector, lane by lane; its lanes are bytes.
fn add(sum: &mut [u8; 64], vector: &[u8; 64])
    ensures sum { sum.new ≡ table 64 (λ v. get_or sum.old v 0 ⊕ get_or vector.now v 0) }
    ensures bytes { (v : ℕ) → get_or vector.now v 0 < 256 }
{
    for v in 0..64 {
        sum[v] = Gf256(sum[v]).sum(Gf256(vector[v])).0;
    }
}

// Adds the vectors whose half has bit t.
#[tactic(auto, using(halves::proofs::Planes::at_most_17))]
fn add_plane(total: &mut [u8; 64], halves: &[u8; 8], t: u32, pairs: Pairs)
    requires { t < 4 }
    ensures { total.new
        ≡ table 64 (λ v.
        get_or total.old v 0
        ⊕ sum (pairs.entry.count * 2) (λ i. (half_of halves.now i / 2 ^ t % 2) ⊗ get_or (vector_of pairs.entry.table.now i) v 0)) }
{
    for j in 0..pairs.count {
        add(
            total,
            &pairs.table[2 * j + ((halves[j] >> t) & 17) as usize],
        );
    }
}

// The sum of the vectors, each by its half.
fn by_nibble(halves: &[u8; 8], pairs: Pairs) -> [u8; 64]
    ensures { result ≡ halves_sum halves.now pairs.entry.table.now pairs.entry.count }
{
    let mut total = [0u8; 64];
    for t in (0..4).rev() {
        double(&mut total);
        add_plane(&mut total, halves, t, pairs);
    }
    total
}

// The same sum as by_nibble: one plane where no half is above 1.
fn by_upper(halves: &[u8; 8], pairs: Pairs) -> [u8; 64]
    ensures { result ≡ halves_sum halves.now pairs.entry.table.now pairs.entry.count }
{
    if bits_used(halves, pairs.count) & 0xee == 0 {
        let mut total = [0u8; 64];
        add_plane(&mut total, halves, 0, pairs);
        total
    } else {
        by_nibble(halves, pairs)
    }
}

// The sum of the vectors, each by its coefficient in column q.
pub fn weighted(rows: &[[u8; 16]; 16], q: usize, pairs: &[[u8; 64]; 32], count: usize) -> [u8; 64]
    requires { (q < 16) × (count ≤ 8) × Paired count pairs.now }
    ensures { result ≡ weighted_of rows.now q pairs.now count }
{
    let pairs = Pairs {
        table: pairs,
        count,
    };
    let upper = pack_halves::<16>(rows, q, count);
    let high = by_upper(&upper, pairs);
    let lower = pack_halves::<1>(rows, q, count);
    let low = by_nibble(&lower, pairs);
    let mut out = [0u8; 64];
    for v in 0..64 {
        out[v] = Gf256(low[v]).sum(Gf256(high[v]).times_alpha()).0;
    }
    out
}
