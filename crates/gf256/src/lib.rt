// The field of 256 elements: a byte 16h + l means hα + l, with narrow h and l, and α × α = α + 8.
#![tactic(auto)]

mod tables;

ghost use Rattle.std.specs.Prelude.{◌≡◌};
ghost use Rattle.galois.specs.Byte.{◌⊕◌, ◌⊗◌, alpha, reciprocal, quotient, Reciprocals, high, low, byte, widen};
ghost use Rattle.galois.proofs.Tables.{listed_prop};
ghost use Rattle.gf256.specs.Answer.{answered};

use gf16::Gf16;
use tables::RECIPROCALS;

// A byte.
#[derive(Clone, Copy)]
pub struct Gf256(pub u8);

impl Gf256 {
    pub const ALPHA: Gf256 = Gf256(16);

    pub fn sum(self, other: Gf256) -> Gf256
        ensures { result.0 ≡ self.0 ⊕ other.0 }
    {
        Gf256(self.0 ^ other.0)
    }

    pub fn product(self, other: Gf256) -> Gf256
        ensures { result.0 ≡ self.0 ⊗ other.0 }
    {
        let h = self.high();
        let l = self.low();
        let g = other.high();
        let m = other.low();
        let hg = h.product(g);
        let top = hg.sum(h.product(m).sum(l.product(g)));
        let rest = Gf16::EIGHT.product(hg).sum(l.product(m));
        Gf256::joined(top, rest)
    }

    // z times a byte: both halves shifted, and z^4 replaced by z + 1 in each.
    pub fn times_z(self) -> Gf256
        ensures { result.0 ≡ 2 ⊗ self.0 }
    {
        let x = self.0;
        Gf256((x & 0x77) * 2 ^ (x / 8 & 0x11) * 3)
    }

    // α times a byte.
    pub fn times_alpha(self) -> Gf256
        ensures { result.0 ≡ alpha ⊗ self.0 }
    {
        Gf256::ALPHA.product(self)
    }

    // None for 0.
    pub fn reciprocal(self) -> Option<Gf256>
        ensures { answered result ≡ reciprocal self.0 }
    {
        self.reciprocal_in(&reciprocals())
    }

    // The same by a lent table, which is looked up for 1 to 255 only.
    pub fn reciprocal_in(self, table: &[u8; 256]) -> Option<Gf256>
        requires { Reciprocals table.now }
        ensures { answered result ≡ reciprocal self.0 }
    {
        if self.0 == 0 {
            None
        } else {
            Some(Gf256(table[self.0 as usize]))
        }
    }

    // Either field's quotient is this one line over its own product: a trait over both would have to say product, reciprocal and 0 again.
    pub fn quotient(self, other: Gf256) -> Gf256
        ensures { result.0 ≡ quotient self.0 other.0 }
    {
        other
            .reciprocal()
            .map_or(Gf256(0), |inverse| self.product(inverse))
    }

    // The byte that is a narrow number, and 0 for a number above 15, so it is no `From`: that would keep every value apart.
    pub fn widened(number: Gf16) -> Gf256
        ensures { result.0 ≡ widen number.0 }
    {
        if 15 < number.0 {
            Gf256(0)
        } else {
            Gf256(number.0)
        }
    }

    // The h and the l of 16h + l.
    fn high(self) -> Gf16
        ensures { result.0 ≡ high self.0 }
    {
        Gf16(self.0 / 16)
    }

    fn low(self) -> Gf16
        ensures { result.0 ≡ low self.0 }
    {
        Gf16(self.0 % 16)
    }

    fn joined(h: Gf16, l: Gf16) -> Gf256
        ensures { result.0 ≡ byte (widen h.0) (widen l.0) }
    {
        Gf256(Gf256::widened(h).0 * 16 + Gf256::widened(l).0)
    }
}

// The table of reciprocals, of which nothing is promised at entry 0.
pub fn reciprocals() -> [u8; 256]
    ensures { Reciprocals result }
{
    RECIPROCALS
}

// The table of reciprocals, made once and lent to all that divide.
#[derive(Drop)]
pub struct ReciprocalTable {
    pub entries: [u8; 256],
    pub ghost listed: { Reciprocals entries } by { listed_prop 256 reciprocal entries },
}

impl ReciprocalTable {
    pub fn new() -> ReciprocalTable
        ensures { Reciprocals result.entries }
    {
        ReciprocalTable {
            entries: reciprocals(),
        }
    }

    // None for 0.
    pub fn reciprocal(&self, number: Gf256) -> Option<Gf256>
        ensures { answered result ≡ reciprocal number.0 }
    {
        number.reciprocal_in(&self.entries)
    }
}
