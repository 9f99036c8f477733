// Random patterns of loss for all accepted T, B and N: what elimination says of one symbol of each.
// reference/PATTERNS.md says what is drawn and printed.
#![tactic(auto)]

mod word;

ghost use Rattle.std.specs.Prelude.{◌≡◌, ◌<◌, T, length};
ghost use Rattle.code.specs.Settings.{accepted, k_of};
ghost use Rattle.protocol.specs.Lengths.{receiver_len};

use buffers::{receiver_len, row_len};
use code::Settings;
use drawing::Random;
use elimination::{Grade, Symbol};
use gf256::ReciprocalTable;
use output::Output;
use std::io::{self, BufWriter, Write};

// What is drawn from, and printed to.
#[derive(Drop)]
struct Test<W> {
    random: Random,
    out: Output<W>,
}

// The receiver's rows in which a codeword arrived that starts at slot 0: position p in row p, after its flag.
fn arrive(s: Settings, flags: &[u8; 16], bytes: &[u8; 16], rows: &mut [u8])
    requires { T (accepted s) × (s.lanes ≡ 1) × (length rows.old ≡ receiver_len s) }
{
    let size = row_len(s);
    for p in 0..s.symbols() {
        rows[p * size] = flags[p];
        rows[p * size + 1 + p] = bytes[p];
    }
}

// What is told of symbol i of message i, once all slots of that codeword are reported, in rows and a symbol that are lent.
fn told_in(
    s: Settings,
    flags: &[u8; 16],
    bytes: &[u8; 16],
    i: usize,
    rows: &mut [u8],
    symbol: &mut [u8],
) -> Grade
    requires { T (accepted s)
        × (s.lanes ≡ 1)
        × (length rows.old ≡ receiver_len s)
        × (length symbol.old ≡ 1)
        × (i < k_of s) }
{
    arrive(s, flags, bytes, rows);
    let matrix = encoder::systematic(s);
    let reciprocals = ReciprocalTable::new();
    symbols::write_symbol(s, rows, s.symbols(), i, i, matrix, &reciprocals, symbol)
}

// That, with the byte of a symbol that is whole. There is room for the rows of any settings.
fn told(s: Settings, flags: &[u8; 16], bytes: &[u8; 16], i: usize) -> Symbol
    requires { T (accepted s) × (s.lanes ≡ 1) × (i < k_of s) }
{
    let mut rows = [0; 32800];
    let end = receiver_len(s);
    let mut symbol = [0];
    match told_in(s, flags, bytes, i, &mut rows[0..end], &mut symbol) {
        Grade::Clash => Symbol::Clash,
        Grade::Lost => Symbol::Lost,
        Grade::Whole => Symbol::Whole(symbol[0]),
    }
}

impl<W: Write> Test<W> {
    // One pattern of loss.
    fn pattern(&mut self, s: Settings, j: u8)
        requires { T (accepted s) × (s.lanes ≡ 1) }
    {
        let i = self.random.below(s.sources());
        let flags = word::flags(&mut self.random);
        let bytes = word::arrived(s, j, &mut self.random);
        let symbol = told(s, &flags, &bytes, i);
        write!(self.out, "{} {} {} {j} {i} ", s.delay, s.burst, s.scattered);
        match symbol {
            Symbol::Clash => self.out.put(b"clash\n"),
            Symbol::Lost => self.out.put(b"lost\n"),
            Symbol::Whole(byte) => writeln!(self.out, "whole {byte}"),
        }
    }

    // Six patterns, for settings that are accepted.
    fn patterns(&mut self, s: Settings)
        requires { s.lanes ≡ 1 }
    {
        if s.accepted() {
            for j in 0..6 {
                self.pattern(s, j);
            }
        }
    }
}

fn main(rt: HostRuntime) -> io::Result<()> {
    let out = Output::new(BufWriter::new(rt.alloc(), io::writer(&rt))?);
    let mut test = Test {
        random: Random(20261115),
        out,
    };
    for delay in 1..=15 {
        for burst in 1..=delay {
            for scattered in 1..=burst {
                test.patterns(Settings {
                    window: delay + 1,
                    delay,
                    burst,
                    scattered,
                    lanes: 1,
                });
            }
        }
    }
    test.out.end()
}
