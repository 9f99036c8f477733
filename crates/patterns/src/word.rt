// The flags and the bytes of a pattern, which are those of a codeword, of one with a byte changed, or any.
ghost use Rattle.std.specs.Prelude.{◌≤◌, ◌<◌};
ghost use Rattle.code.specs.Settings.{n_of};

use code::Settings;
use drawing::Random;
use gf256::Gf256;

pub(crate) fn flags(random: &mut Random) -> [u8; 16] {
    let mut flags = [0; 16];
    for flag in flags.iter_mut() {
        *flag = random.pick(&[0, 1, 1, 7]);
    }
    flags
}

// As many bytes as are asked for, and then zeros.
fn bytes(random: &mut Random, count: usize) -> [u8; 16]
    requires { count ≤ 16 }
{
    let mut bytes = [0; 16];
    random.fill(&mut bytes[..count]);
    bytes
}

// The word whose first symbols are given.
fn codeword(s: Settings, symbols: [u8; 16]) -> [u8; 16] {
    let rows = encoder::systematic(s);
    let mut word = [0; 16];
    for (p, byte) in word.iter_mut().enumerate() {
        let mut total = Gf256(0);
        for (symbol, row) in symbols.iter().zip(rows.iter()) {
            total = total.sum(Gf256(*symbol).product(Gf256(row[p])));
        }
        *byte = total.0;
    }
    word
}

// The word with one of its first n bytes changed.
fn changed(mut word: [u8; 16], random: &mut Random, n: usize) -> [u8; 16]
    requires { (0 < n) × (n ≤ 16) }
{
    let q = random.below(n);
    let e = random.below(255) + 1;
    word[q] ^= e as u8;
    word
}

// The bytes of pattern j, of six: its kind goes by j, as reference/PATTERNS.md draws it.
#[tactic(auto, unfolding(code::specs::Settings::n_of, code::specs::Settings::k_of))]
pub(crate) fn arrived(s: Settings, j: u8, random: &mut Random) -> [u8; 16]
    requires { n_of s ≤ 16 }
{
    match j % 3 {
        0 => codeword(s, bytes(random, s.sources())),
        1 => changed(codeword(s, bytes(random, s.sources())), random, s.symbols()),
        _ => bytes(random, 16),
    }
}
