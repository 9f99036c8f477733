// One position of an elimination: its pivot is looked for, scaled to 1, and cleared from the other rows. A position and a number of rows
// stay numbers with a bound each: the arrays are indexed by them.
#![tactic(auto)]

ghost use Rattle.std.specs.Prelude.{◌≡◌, ◌≤◌, ◌<◌, MatchOption, eqb, length, get_or};
ghost use Rattle.galois.specs.Byte.{quotient};
ghost use Rattle.galois.specs.Table.{table};
ghost use Rattle.elimination.specs.Elimination.{pivot_from, cleared, column_step, left_flag};

use elimination::Reduced;
use gf256::{Gf256, ReciprocalTable};
use multiples::{quarters, row_by, row_times};

// The first row below k that is free and not 0 at position p.
fn pivot_row(reduced: &Reduced, p: usize, k: usize) -> Option<usize>
    requires { (p < 16) × (k ≤ 16) }
    ensures { MatchOption result (pivot_from reduced.now p 0 k ≡ 16) (λ r. (r < k) × (pivot_from reduced.now p 0 k ≡ r)) }
{
    (0..k).find(
        |&r|
            requires { (r < 16) × (p < 16) }
        { reduced.roles[r] == 16 && reduced.rows[r][p] != 0 },
    )
}

// A row divided by its entry at position p; one that is 1 there stays as it is, and one that is 0 there becomes zeros.
fn scaled(row: [u8; 16], p: usize, reciprocals: &ReciprocalTable) -> [u8; 16]
    requires { p < 16 }
    ensures { result ≡ table 16 (λ j. quotient (get_or row j 0) (get_or row p 0)) }
{
    if row[p] == 1 {
        return row;
    }
    match reciprocals.reciprocal(Gf256(row[p])) {
        None => [0; 16],
        Some(inverse) => row_times(row, inverse.0),
    }
}

// Row r is scaled to 1 at position p, which is cleared from every other of the first k rows.
fn clear_column(
    rows: &mut [[u8; 16]; 16],
    r: usize,
    p: usize,
    k: usize,
    reciprocals: &ReciprocalTable,
)
    requires { (r < k) × (p < 16) × (k ≤ 16) }
    ensures { rows.new ≡ cleared k rows.old r p }
{
    let pivot = scaled(rows[r], p, reciprocals);
    let parts = quarters(pivot);
    for row in &mut rows[..k] {
        *row = row_by(*row, row[p], &parts);
    }
    rows[r] = pivot;
}

// One position: its pivot, if it is known and some row can be one. Returned is what is left of its flag: 0 if it has become a pivot.
pub fn column_step(
    reduced: &mut Reduced,
    flag: u8,
    p: usize,
    k: usize,
    reciprocals: &ReciprocalTable,
) -> u8
    requires { (p < 16) × (k ≤ 16) }
    ensures step { reduced.new ≡ column_step k (eqb flag 1) p reduced.old }
    ensures left { result ≡ left_flag k (eqb flag 1) p reduced.old flag }
{
    if flag != 1 {
        return flag;
    }
    match pivot_row(reduced, p, k) {
        None => flag,
        Some(r) => {
            clear_column(&mut reduced.rows, r, p, k, reciprocals);
            reduced.roles[r] = p as u8;
            0
        }
    }
}
