// The receiver's opening.
ghost use Rattle.std.specs.Prelude.{◌≡◌};
ghost use Rattle.protocol.specs.Calls.{open_receiver_of};

use buffers::row_len;
use causes::open_receiver_cause;
use code::Settings;
use ends::opened_receiver;
use protocol::{Outcome, Receiver};
use ring::write_opened;

// Opens a receiver at this slot: its rows are lost from slot 0 to the one before it, and received zeros before slot 0. So row r is lost
// exactly if r is below the slot.
pub fn open(s: Settings, slot: u32, rows: &mut [u8]) -> Outcome<(), Receiver>
    ensures { record { answer = result.answer; receiver = result.state; rows = rows.new }
        ≡ open_receiver_of s slot rows.old }
{
    if let Err(c) = open_receiver_cause(s, slot, rows) {
        return Outcome::refused(c, Receiver::NONE);
    }
    write_opened(rows, row_len(s), slot);
    Outcome {
        answer: Ok(()),
        state: opened_receiver(s, slot),
    }
}
