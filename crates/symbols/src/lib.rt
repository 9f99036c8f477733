// One symbol of a message in all lanes: where it stands, one elimination, and one answer.
#![tactic(auto)]

ghost use Rattle.std.specs.Prelude.{◌<◌, length, ◌≡◌, ◌≢◌};
ghost use Rattle.code.specs.Settings.{k_of};
ghost use Rattle.code.specs.Word.{systematic_of};
ghost use Rattle.places.specs.Places.{Ready};
ghost use Rattle.symbols.specs.Decision.{Told};

use code::Settings;
use elimination::Grade;
use gf256::ReciprocalTable;
use lanes::answer;
use places::{Located, locate};
use reduction::eliminate;
use shares::Codewords;

// Symbol i of message t in all lanes: its grade, and its bytes where it is whole; else `out` stays as it was lent. The matrix is the
// systematic form. Settings, rows and slots are parameters for the reason that places has; matrix and reciprocals are lent by `decided`.
pub fn write_symbol(
    s: Settings,
    rows: &[u8],
    due: usize,
    t: usize,
    i: usize,
    matrix: [[u8; 16]; 16],
    reciprocals: &ReciprocalTable,
    out: &mut [u8],
) -> Grade
    requires { Ready s rows.now t × (due < 4294967296) × (i < k_of s) × (matrix ≡ systematic_of s) × (length out.old ≡ s.lanes) }
    ensures told { Told s rows.now due t i result out.new }
    ensures kept { result ≢ Grade.Whole → out.new ≡ out.old }
{
    let mut located = Located {
        places: [0; 16],
        flags: [0; 16],
        roles: [16; 16],
    };
    locate(s, rows, due + i, t, i, &mut located);
    let reduced = eliminate(s, reciprocals, matrix, located.roles, &mut located.flags);
    let words = Codewords {
        s,
        places: &located.places,
        bytes: rows,
    };
    answer(&words, &reduced, &located.flags, i, out)
}
