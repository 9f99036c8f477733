// The numbers that the test programs draw: each run draws the same ones, and so does the reference.
#![tactic(auto)]

ghost use Rattle.std.specs.Prelude.{◌≡◌, ◌%◌, ◌<◌, length, slice_index, EachIndex};
ghost use Rattle.drawing.specs.Drawn.{after, next_of, after_all};

// What the next number is made of. A copy would draw the same numbers again, so there is none.
#[derive(Drop)]
pub struct Random(pub u64);

impl Random {
    // The next number, 0 to 32767.
    pub fn next(&mut self) -> u16
        ensures state { self.new.0 ≡ after self.old.0 }
        ensures number { result ≡ next_of self.old.0 }
    {
        self.0 = (self.0 % 2147483648 * 1103515245 + 12345) % 2147483648;
        (self.0 / 65536) as u16
    }

    // The next number modulo m.
    pub fn below(&mut self, m: usize) -> usize
        requires { 0 < m }
        ensures below { result < m }
        ensures state { self.new.0 ≡ after self.old.0 }
        ensures number { result ≡ next_of self.old.0 % m }
    {
        usize::from(self.next()) % m
    }

    // The next number as a byte.
    pub fn byte(&mut self) -> u8
        ensures state { self.new.0 ≡ after self.old.0 }
        ensures number { result ≡ next_of self.old.0 % 256 }
    {
        (self.next() % 256) as u8
    }

    // One of these bytes, by the next number.
    pub fn pick(&mut self, bytes: &[u8]) -> u8
        requires { 0 < length bytes.now }
        ensures state { self.new.0 ≡ after self.old.0 }
        ensures byte { result ≡ slice_index bytes.now (next_of self.old.0 % length bytes.now) }
    {
        bytes[self.below(bytes.len())]
    }

    // Every byte, in their order.
    pub fn fill(&mut self, bytes: &mut [u8])
        ensures state { self.new.0 ≡ after_all self.old.0 (length bytes.old) }
        ensures bytes { EachIndex bytes.new (λ i. slice_index bytes.new i ≡ next_of (after_all self.old.0 i) % 256) }
    {
        for byte in bytes.iter_mut() {
            *byte = self.byte();
        }
    }
}
