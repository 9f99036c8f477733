// What elimination says of one symbol of all lanes at once.
#![tactic(auto)]

mod symbol;

ghost use Rattle.std.specs.Prelude.{◌≡◌, ◌<◌, length};
ghost use Rattle.code.specs.Settings.{k_of};
ghost use Rattle.clashes.specs.Clashes.{ParityOnly};
ghost use Rattle.lanes.specs.Lanes.{Own, lanes_said};

use clashes::{clashing, differing};
use elimination::{Grade, Reduced};
use shares::{Codewords, Vectors, gather};
use symbol::{write_own, write_sum};

// What elimination says of position i, where no source has a flag: a clash if some lane clashes at a position whose flag is 1, else
// lost if the symbol is, else whole, and `out` gets the shared bytes.
pub fn answer(
    words: &Codewords,
    reduced: &Reduced,
    flags: &[u8; 16],
    i: usize,
    out: &mut [u8],
) -> Grade
    requires { (i < k_of words.now.s) × (length out.old ≡ words.now.s.lanes) × Own words.now.s reduced.now i
        × ParityOnly words.now.s flags.now }
    ensures { record { grade = result; symbol = out.new }
        ≡ lanes_said words.now.s reduced.now flags.now words.now.places.now words.now.bytes.now i out.old }
{
    let mut table = [[0u8; 64]; 32];
    gather(words, &reduced.roles, &mut table);
    let vectors = Vectors {
        words: *words,
        table: &table,
    };
    if clashing(&vectors, &reduced.rows, flags) {
        return Grade::Clash;
    }
    if reduced.roles[i] as usize == i {
        write_own(words, i, out);
        return Grade::Whole;
    }
    if differing(words.s, reduced, i) {
        return Grade::Lost;
    }
    write_sum(&vectors, &reduced.rows, i, out);
    Grade::Whole
}
