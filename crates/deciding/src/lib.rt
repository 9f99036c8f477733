// The receiver's decision on one message: for each source symbol one elimination, and one answer for all lanes.
#![tactic(auto)]

ghost use Rattle.std.specs.Prelude.{◌≡◌, ◌<◌, Ok, length};
ghost use Rattle.protocol.specs.Lengths.{message_len};
ghost use Rattle.protocol.specs.Verdict.{verdict, buffer_of};
ghost use Rattle.places.specs.Places.{Ready};

use buffers::clear;
use code::Settings;
use elimination::Grade;
use gf256::ReciprocalTable;
use protocol::Told;
use symbols::write_symbol;

// What the receiver says of message t, once the slots below due are reported. The buffer gets the message when it is whole, else
// zeros.
pub fn decided(s: Settings, rows: &[u8], due: usize, t: usize, message: &mut [u8]) -> Told
    requires { Ready s rows.now t × (due < 4294967296) × (length message.old ≡ message_len s) }
    ensures said { Ok result ≡ verdict s rows.now due t }
    ensures message { message.new ≡ buffer_of s rows.now due t (Ok result) }
{
    let matrix = encoder::systematic(s);
    let reciprocals = ReciprocalTable::new();
    let lanes = s.lanes as usize;
    let mut worst = Grade::Whole;
    for i in 0..s.sources() {
        let start = i * lanes;
        let symbol = &mut message[start..start + lanes];
        let grade = write_symbol(s, rows, due, t, i, matrix, &reciprocals, symbol);
        worst = worst.max(grade);
    }
    match worst {
        Grade::Whole => Told::Whole,
        Grade::Lost => {
            clear(message);
            Told::Lost
        }
        Grade::Clash => {
            clear(message);
            Told::Clash
        }
    }
}
