// The parity symbols of a frame: weighted sums of the source symbols that the sender's rows hold.
#![tactic(auto)]

mod sources;

ghost use Rattle.std.specs.Prelude.{◌≡◌, ◌*◌, T, length};
ghost use Rattle.code.specs.Settings.{accepted};
ghost use Rattle.protocol.specs.Lengths.{sender_len};
ghost use Rattle.parity.specs.Parities.{parities_of};

use code::Settings;
use copying::write_at;
use encoder::systematic;
use sources::gather;
use vectors::weighted;

// Writes the B parity symbols of the frame of the slot due, each in all lanes: the sum of the k source symbols, each by its entry of the
// systematic form.
// The rows, the settings and the slot due are no struct: it would carry three facts as ghost fields, that the rows hold bytes too, and be
// opened in every definition.
#[tactic(auto, using(code::proofs::Shape::shape))]
pub fn write_parities(out: &mut [u8], rows: &[u8], s: Settings, due: u32)
    requires { T (accepted s) × (length rows.now ≡ sender_len s) × (length out.old ≡ s.burst * s.lanes) }
    ensures { out.new ≡ parities_of s rows.now due s.burst }
{
    let form = systematic(s);
    let lanes = s.lanes as usize;
    let count = s.pairs();
    let mut pairs = [[0u8; 64]; 32];
    for e in 0..s.burst as usize {
        let p = s.sources() + e;
        gather(&mut pairs, rows, s, due, p);
        let sum = weighted(&form, p, &pairs, count);
        write_at(out, e * lanes, &sum[..lanes]);
    }
}
