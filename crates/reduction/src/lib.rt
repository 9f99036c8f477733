// Elimination over the known positions of a systematic form: the known sources are pivots from the start, then each known parity
// position takes one more. It is the same for every lane.
#![tactic(auto)]

ghost use Rattle.std.specs.Prelude.{◌≡◌};
ghost use Rattle.elimination.specs.Elimination.{reduced_from, left_from};

use code::Settings;
use columns::column_step;
use elimination::Reduced;
use gf256::ReciprocalTable;

// Elimination over the parity positions whose flag is 1, on a copy of the matrix and its roles, which is returned; the flag of each
// position that becomes a pivot is cleared. For settings that are not accepted nothing is done.
pub fn eliminate(
    s: Settings,
    reciprocals: &ReciprocalTable,
    matrix: [[u8; 16]; 16],
    roles: [u8; 16],
    flags: &mut [u8; 16],
) -> Reduced
    ensures reduced { result ≡ reduced_from s (record { rows = matrix; roles = roles }) flags.old }
    ensures left { flags.new ≡ left_from s (record { rows = matrix; roles = roles }) flags.old }
{
    let mut reduced = Reduced {
        rows: matrix,
        roles,
    };
    if s.accepted() {
        for p in s.sources()..s.symbols() {
            flags[p] = column_step(&mut reduced, flags[p], p, s.sources(), reciprocals);
        }
    }
    reduced
}
