// Numbers and bytes in digits, written over a lent line from a place on; each writer says where its text ends. The line and the place stay
// two parameters: what a writer leaves is said of the lent line itself, and in a struct it would be said of what a field lends.
#![tactic(auto)]

ghost use Rattle.std.specs.Prelude.{◌≡◌, ◌+◌, ◌*◌, ◌≤◌, ◌<◌, length};
ghost use Rattle.numbers.specs.Digits.{glyph, decimal, hex, Puts};

// A digit below 16, in lower case.
fn digit(d: u8) -> u8
    requires { d < 16 }
    ensures { result ≡ glyph d }
{
    if d < 10 { b'0' + d } else { b'a' + (d - 10) }
}

// A number in decimal. It is no `write!` of std: that says what it wrote where it succeeds, and not that it does.
pub fn write_decimal(n: u32, line: &mut [u8], start: usize) -> usize
    requires { start + length (decimal n) ≤ length line.old }
    ensures { Puts start (decimal n) line.old result line.new }
{
    let at = if n < 10 {
        start
    } else {
        write_decimal(n / 10, line, start)
    };
    line[at] = digit((n % 10) as u8);
    at + 1
}

// Bytes in lower-case hex.
pub fn write_hex(bytes: &[u8], line: &mut [u8], start: usize) -> usize
    requires { start + 2 * length bytes.now ≤ length line.old }
    ensures { Puts start (hex bytes.now) line.old result line.new }
{
    for (i, byte) in bytes.iter().enumerate() {
        let at = start + 2 * i;
        line[at] = digit(*byte / 16);
        line[at + 1] = digit(*byte % 16);
    }
    start + 2 * bytes.len()
}
