// Multiples of rows. A byte is the sum of its four digits in base 4, each by its power of 4, so that a multiple of a row is the sum of
// four out of 16 multiples, which are made once for all the bytes that multiply the row.
ghost use Rattle.std.specs.Prelude.{◌≡◌, get_or};
ghost use Rattle.galois.specs.Byte.{◌⊗◌};
ghost use Rattle.galois.specs.Table.{table};
ghost use Rattle.multiples.specs.Quarters.{quarters_of, row_by};

use gf256::Gf256;

// The multiples of a row by the digits of a byte: entry 4t + d is d * 4^t times the row.
pub fn quarters(row: [u8; 16]) -> [[u8; 16]; 16]
    ensures { result ≡ quarters_of row }
{
    let mut out = [[0u8; 16]; 16];
    for j in 0..16 {
        let x = Gf256(row[j]);
        let x2 = x.times_z();
        let x4 = x2.times_z();
        let x8 = x4.times_z();
        let a = x.times_alpha();
        let a2 = a.times_z();
        let a4 = a2.times_z();
        let a8 = a4.times_z();
        out[1][j] = x.0;
        out[2][j] = x2.0;
        out[3][j] = x.sum(x2).0;
        out[5][j] = x4.0;
        out[6][j] = x8.0;
        out[7][j] = x4.sum(x8).0;
        out[9][j] = a.0;
        out[10][j] = a2.0;
        out[11][j] = a.sum(a2).0;
        out[13][j] = a4.0;
        out[14][j] = a8.0;
        out[15][j] = a4.sum(a8).0;
    }
    out
}

// A row with c times another row added, by the quarters of the other.
pub fn row_by(row: [u8; 16], c: u8, parts: &[[u8; 16]; 16]) -> [u8; 16]
    ensures { result ≡ row_by row c parts.now }
{
    let ones = parts[(c % 4) as usize];
    let fours = parts[4 + (c / 4 % 4) as usize];
    let sixteens = parts[8 + (c / 16 % 4) as usize];
    let sixty_fours = parts[12 + (c / 64 % 4) as usize];
    let mut out = [0u8; 16];
    for j in 0..16 {
        let digits = Gf256(ones[j])
            .sum(Gf256(fours[j]))
            .sum(Gf256(sixteens[j]))
            .sum(Gf256(sixty_fours[j]));
        out[j] = Gf256(row[j]).sum(digits).0;
    }
    out
}

// c times a row.
pub fn row_times(row: [u8; 16], c: u8) -> [u8; 16]
    ensures { result ≡ table 16 (λ j. c ⊗ get_or row j 0) }
{
    let mut out = [0u8; 16];
    for j in 0..16 {
        out[j] = Gf256(c).product(Gf256(row[j])).0;
    }
    out
}
