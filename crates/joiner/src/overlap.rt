// Slots that both recordings have: whether a byte differs in one of them.
ghost use Rattle.std.specs.Prelude.{◌≡◌};
ghost use Rattle.aerials.specs.Pair.{unlike};

use crate::search::Ordered;

// Whether the frames of a slot that both have differ; both recordings are walked at once, the one behind moving on.
pub(crate) fn unlike<'a>(first: Ordered<'a>, second: Ordered<'a>) -> bool
    requires { second.recorded.settings ≡ first.recorded.settings }
    ensures { result ≡ unlike first.entry.recorded.settings first.entry.recorded.bytes.now second.entry.recorded.bytes.now }
{
    let (a, b) = (first.recorded, second.recorded);
    let (m, n) = (a.len(), b.len());
    let mut i: usize = 0;
    let mut j: usize = 0;
    // The one number goes on, or the other, or both: no range is walked.
    while i < m && j < n {
        let (x, y) = (a.slot(i), b.slot(j));
        if x < y {
            i += 1;
        } else if y < x {
            j += 1;
        } else {
            if a.frame(i) != b.frame(j) {
                return true;
            }
            i += 1;
            j += 1;
        }
    }
    false
}
