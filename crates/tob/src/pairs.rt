// The check of two recordings of one meeting.
ghost use Rattle.std.specs.Prelude.{◌≡◌};
ghost use Rattle.library.specs.Calls.{pair_bytes};

use frames::settings_at;
use joiner::pair_cause;

// 0 where the pair is accepted, else the number of its first cause.
#[unsafe(no_mangle)]
pub extern "C" fn tob_pair_cause(settings: &[u8; 5], first: &[u8], second: &[u8]) -> u32
    ensures { result ≡ pair_bytes settings.now first.now second.now }
{
    match pair_cause(settings_at(settings, 0), first, second) {
        Ok(()) => 0,
        Err(c) => u32::from(c),
    }
}
