// The part of a pair that is lent for a slot.
ghost use Rattle.std.specs.Prelude.{◌≡◌, ◌+◌};
ghost use Rattle.aerials.specs.Pair.{pair_cause};
ghost use Rattle.aerials.specs.Parts.{of_aerial, bytes_of, part_of, join_of};

use crate::check::pair_cause;
use crate::search::Ordered;
use code::Settings;

// Of a pair that is accepted: the first's frame of the slot, else the second's, else an empty part. That it is accepted is a clause, for
// whose bytes are lent, and from which on, is said by the addresses of the two slices.
pub fn part<'a>(s: Settings, first: &'a [u8], second: &'a [u8], slot: u32) -> &'a [u8]
    requires { pair_cause s first.now second.now ≡ 0 }
    ensures bytes { result.now
        ≡ bytes_of first.now second.now (part_of s first.now second.now slot) }
    ensures whose { result.ref_ptr.0
        ≡ of_aerial (part_of s first.now second.now slot).whose first.entry.ref_ptr.0 second.entry.ref_ptr.0 }
    ensures start { result.ref_ptr.1
        ≡ of_aerial (part_of s first.now second.now slot).whose first.entry.ref_ptr.1 second.entry.ref_ptr.1
        + (part_of s first.now second.now slot).start }
{
    let one = Ordered::new(s, first);
    let two = Ordered::new(s, second);
    if let Some(n) = one.place(slot) {
        one.recorded.frame(n)
    } else if let Some(n) = two.place(slot) {
        two.recorded.frame(n)
    } else {
        &first[0..0]
    }
}

// Of any pair: an empty part for one that is refused.
pub fn join<'a>(s: Settings, first: &'a [u8], second: &'a [u8], slot: u32) -> &'a [u8]
    ensures bytes { result.now
        ≡ bytes_of first.now second.now (join_of s first.now second.now slot) }
    ensures whose { result.ref_ptr.0
        ≡ of_aerial (join_of s first.now second.now slot).whose first.entry.ref_ptr.0 second.entry.ref_ptr.0 }
    ensures start { result.ref_ptr.1
        ≡ of_aerial (join_of s first.now second.now slot).whose first.entry.ref_ptr.1 second.entry.ref_ptr.1
        + (join_of s first.now second.now slot).start }
{
    if pair_cause(s, first, second).is_ok() {
        part(s, first, second, slot)
    } else {
        &first[0..0]
    }
}
