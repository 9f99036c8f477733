// The codewords of all lanes, as their bytes stand.
ghost use Rattle.std.specs.Prelude.{◌≡◌, ℕ, ◌+◌, ◌≤◌, ◌<◌, T, length, get_or};
ghost use Rattle.galois.specs.Table.{table};
ghost use Rattle.code.specs.Settings.{accepted, n_of};
ghost use Rattle.shares.specs.Shares.{lane_byte};
ghost use lib.Dec.{T_prop};

use code::Settings;

// Of symbol p the L bytes from place p on, one for each lane, received or not.
#[derive(Clone, Copy)]
pub struct Codewords<'a> {
    pub s: Settings,
    pub places: &'a [usize; 16],
    pub bytes: &'a [u8],
    pub ghost settings: { T (accepted s) } by { T_prop (accepted s) },
    pub ghost inside: { (p : ℕ) → p < n_of s → get_or places.now p 0 + s.lanes ≤ length bytes.now },
    // What their type says, for those who have the bytes in this struct alone.
    pub ghost small: { (j : ℕ) → get_or bytes.now j 0 < 256 },
}

impl<'a> Codewords<'a> {
    // The L bytes at position p.
    pub fn symbol(&self, p: usize) -> &'a [u8]
        requires { p < n_of self.now.s }
        ensures { result.now ≡ table self.now.s.lanes (λ v. lane_byte self.now.s self.now.places.now self.now.bytes.now v p) }
    {
        let start = self.places[p];
        let lanes = self.s.lanes as usize;
        &self.bytes[start..start + lanes]
    }
}
