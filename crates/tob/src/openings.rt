// The openings of both ends.
ghost use Rattle.std.specs.Prelude.{◌≡◌};
ghost use Rattle.library.specs.Calls.{open_sender_bytes, open_receiver_bytes};

use causes::open_cause;
use frames::settings_at;
use layout::save_answer;
use state::{STATE_LEN, receiver_bytes, sender_bytes};

// Opens a sender: writes its state and zeroes its rows.
#[unsafe(no_mangle)]
pub extern "C" fn tob_open_sender(settings: &[u8; 5], state: &mut [u8], rows: &mut [u8]) -> u32
    ensures { record { reply = result; state = state.new; rows = rows.new }
        ≡ open_sender_bytes settings.now state.old rows.old }
{
    let s = settings_at(settings, 0);
    if let Err(c) = open_cause(s, STATE_LEN, state) {
        return u32::from(c);
    }
    let r = sender::open(s, rows);
    save_answer(r.answer, sender_bytes(r.state), state)
}

// Opens a receiver at slot 0.
#[unsafe(no_mangle)]
pub extern "C" fn tob_open_receiver(settings: &[u8; 5], state: &mut [u8], rows: &mut [u8]) -> u32
    ensures { record { reply = result; state = state.new; rows = rows.new }
        ≡ open_receiver_bytes settings.now 0 state.old rows.old }
{
    tob_open_receiver_at(settings, 0, state, rows)
}

// Opens a receiver at any slot: writes its state, and in its rows the slots before that one.
#[unsafe(no_mangle)]
pub extern "C" fn tob_open_receiver_at(
    settings: &[u8; 5],
    slot: u32,
    state: &mut [u8],
    rows: &mut [u8],
) -> u32
    ensures { record { reply = result; state = state.new; rows = rows.new }
        ≡ open_receiver_bytes settings.now slot state.old rows.old }
{
    let s = settings_at(settings, 0);
    if let Err(c) = open_cause(s, STATE_LEN, state) {
        return u32::from(c);
    }
    let r = receiver::open(s, slot, rows);
    save_answer(r.answer, receiver_bytes(r.state), state)
}
