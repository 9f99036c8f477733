// The field of sixteen elements: a number 0 to 15 is a polynomial over two elements, modulo z^4 + z + 1.
#![tactic(auto)]

ghost use Rattle.std.specs.Prelude.{◌≡◌, ◌*◌, ◌/◌, ◌%◌, ◌<◌};
ghost use Rattle.std.specs.Int.Bits.{bit_xor};
ghost use Rattle.galois.specs.Reciprocal.{Listed};
ghost use Rattle.galois.specs.Narrow.{◌⊞◌, ◌⊠◌, narrow_reciprocal, narrow_quotient};
ghost use Rattle.gf16.specs.Answer.{answered};

// The reciprocals of the narrow numbers, each at its number. 0 has none: its entry is never read.
const NARROW_RECIPROCALS: [u8; 16] = [0, 1, 9, 14, 13, 11, 7, 6, 15, 2, 12, 5, 10, 4, 3, 8];

// A narrow number. An operation that is handed a number above 15 gives 0; such a number has no reciprocal.
#[derive(Clone, Copy)]
pub struct Gf16(pub u8);

impl Gf16 {
    // The 8 of α × α = α + 8.
    pub const EIGHT: Gf16 = Gf16(8);

    pub fn sum(self, other: Gf16) -> Gf16
        ensures { result.0 ≡ self.0 ⊞ other.0 }
    {
        let a = self.0;
        let b = other.0;
        if 15 < a || 15 < b {
            return Gf16(0);
        }
        Gf16(a ^ b)
    }

    pub fn product(self, other: Gf16) -> Gf16
        ensures { result.0 ≡ self.0 ⊠ other.0 }
    {
        if 15 < self.0 || 15 < other.0 {
            return Gf16(0);
        }
        self.narrow_product(other)
    }

    // The product of two numbers that are narrow: the polynomials', with z^4, z^5 and z^6 replaced by what they are modulo z^4 + z + 1.
    fn narrow_product(self, other: Gf16) -> Gf16
        requires { (self.0 < 16) × (other.0 < 16) }
        ensures { result.0 ≡ self.0 ⊠ other.0 }
    {
        let x = self.0;
        let y = other.0;
        let sum = where_odd(x, y)
            ^ where_odd(x * 2, y / 2)
            ^ where_odd(x * 4, y / 4)
            ^ where_odd(x * 8, y / 8);
        Gf16(replaced(sum))
    }

    // None for 0, and for a number above 15.
    pub fn reciprocal(self) -> Option<Gf16>
        ensures { answered result ≡ narrow_reciprocal self.0 }
    {
        let number = self.0;
        if number == 0 || 15 < number {
            return None;
        }
        Some(Gf16(reciprocals()[number as usize]))
    }

    pub fn quotient(self, other: Gf16) -> Gf16
        ensures { result.0 ≡ narrow_quotient self.0 other.0 }
    {
        other
            .reciprocal()
            .map_or(Gf16(0), |inverse| self.product(inverse))
    }
}

// The table of reciprocals, of which nothing is promised at entry 0.
fn reciprocals() -> [u8; 16]
    ensures { Listed 16 narrow_reciprocal result }
{
    NARROW_RECIPROCALS
}

// The number where the other is odd, else 0.
fn where_odd(number: u8, other: u8) -> u8
    ensures { result ≡ number * (other % 2) }
{
    number * (other % 2)
}

// A polynomial of up to eight terms with its powers from z^4 on replaced once, z^4 by z + 1.
fn replaced(polynomial: u8) -> u8
    ensures { result ≡ bit_xor (bit_xor (polynomial % 16) (polynomial / 16)) (polynomial / 16 * 2) }
{
    let over = polynomial / 16;
    polynomial % 16 ^ over ^ over * 2
}
