// How a pair starts: the tests before any line.
ghost use Rattle.std.specs.Prelude.{◌≡◌, false, ◌+◌, eqb, length};
ghost use Rattle.pairplay.specs.Transcript.{shown_by};
ghost use Rattle.pairplay.specs.Steps.{pair_start};

use aerials::PairCause;
use code::Settings;
use frames::settings_at;
use joiner::pair_cause;

// A pair that is not empty, by the recording that shows its settings.
fn started(shown: &[u8], first: &[u8], second: &[u8]) -> Result<Option<Settings>, PairCause>
    requires { (eqb (length first.now + length second.now) 0 ≡ false) × (shown.now ≡ shown_by first.now second.now) }
    ensures { result ≡ pair_start first.now second.now }
{
    if shown.len() < 14 {
        return Err(PairCause::BadLength);
    }
    let s = settings_at(shown, 5);
    pair_cause(s, first, second)?;
    Ok(Some(s))
}

// Whether a pair is empty, refused before any line, or played with which settings.
pub fn examine(first: &[u8], second: &[u8]) -> Result<Option<Settings>, PairCause>
    ensures { result ≡ pair_start first.now second.now }
{
    if !first.is_empty() {
        started(first, first, second)
    } else if !second.is_empty() {
        started(second, first, second)
    } else {
        Ok(None)
    }
}
