// What the benchmark times of the joiner, behind calls by numbers: it is no part of the library for terminals.
#![tactic(auto)]

ghost use Rattle.std.specs.Prelude.{◌≡◌};
ghost use Rattle.measured.specs.Timed.{joined_len, heard_slots};

use frames::settings_at;
use joiner::{join, pair_cause, part};

// How many bytes the joiner lends for a slot.
#[unsafe(no_mangle)]
pub extern "C" fn joined_len<'a>(
    settings: &[u8; 5],
    first: &'a [u8],
    second: &'a [u8],
    slot: u32,
) -> usize
    ensures { result ≡ joined_len settings.now first.now second.now slot }
{
    join(settings_at(settings, 0), first, second, slot).len()
}

// How many of the slots below this one an accepted pair lends a frame for, each asked for in turn; 0 of a refused pair.
#[unsafe(no_mangle)]
pub extern "C" fn heard_slots<'a>(
    settings: &[u8; 5],
    first: &'a [u8],
    second: &'a [u8],
    slots: u32,
) -> u32
    ensures { result ≡ heard_slots settings.now first.now second.now slots }
{
    let s = settings_at(settings, 0);
    if pair_cause(s, first, second).is_err() {
        return 0;
    }
    let mut heard = 0;
    for slot in 0..slots {
        if !part(s, first, second, slot).is_empty() {
            heard += 1;
        }
    }
    heard
}
