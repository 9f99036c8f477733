// Writing into lent slices.
ghost use Rattle.std.specs.Prelude.{◌++◌, ◌≡◌, ◌+◌, ◌≤◌, length, take, drop, replicate};

// Writes the bytes over a slice, from the place `start`.
pub fn write_at(out: &mut [u8], start: usize, bytes: &[u8])
    requires { start + length bytes.now ≤ length out.old }
    ensures { out.new
        ≡ take start out.old ++ bytes.now ++ drop (start + length bytes.now) out.old }
{
    out[start..start + bytes.len()].copy_from_slice(bytes);
}

// Zeros over a whole slice.
pub fn clear(out: &mut [u8])
    ensures { out.new ≡ replicate (length out.old) 0 }
{
    out.fill(0);
}
