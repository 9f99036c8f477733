// Bytes copied by a loop, which becomes a call of memcpy. The library's copy_from_slice becomes one of memmove, which the archive for C
// does not ask of those who link it.
#![tactic(auto)]

ghost use Rattle.std.specs.Prelude.{◌++◌, ◌≡◌, ◌+◌, ◌≤◌, length, take, drop};

// Writes the bytes over a slice, from the place `start`.
pub fn write_at(out: &mut [u8], start: usize, bytes: &[u8])
    requires { start + length bytes.now ≤ length out.old }
    ensures { out.new
        ≡ take start out.old ++ bytes.now ++ drop (start + length bytes.now) out.old }
{
    for i in 0..bytes.len() {
        out[start + i] = bytes[i];
    }
}
