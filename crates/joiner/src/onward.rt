// The next slot that a pair has.
ghost use Rattle.std.specs.Prelude.{◌≡◌};
ghost use Rattle.aerials.specs.Pair.{pair_cause};
ghost use Rattle.aerials.specs.Next.{earlier, next_of};

use crate::search::Ordered;
use code::Settings;

// The earlier of two slots, where there are two.
fn earlier(a: Option<u32>, b: Option<u32>) -> Option<u32>
    ensures { result ≡ earlier a b }
{
    match (a, b) {
        (Some(x), Some(y)) => Some(x.min(y)),
        _ => a.or(b),
    }
}

// The next slot, from this one on, that either recording of an accepted pair has.
pub fn next_slot(s: Settings, first: &[u8], second: &[u8], slot: u32) -> Option<u32>
    requires { pair_cause s first.now second.now ≡ 0 }
    ensures { result ≡ next_of s first.now second.now slot }
{
    let one = Ordered::new(s, first);
    let two = Ordered::new(s, second);
    earlier(one.next(slot), two.next(slot))
}
