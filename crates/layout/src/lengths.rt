// A length as the static library gives it to C, where a length that there is none of is 0.
ghost use Rattle.std.specs.Prelude.{cond, ◌≡◌};
ghost use Rattle.code.specs.Settings.{accepted};

use code::Settings;

// The length where the settings are accepted, else 0.
pub fn or_zero(s: Settings, len: usize) -> usize
    ensures { result ≡ cond (accepted s) len 0 }
{
    if s.accepted() { len } else { 0 }
}
