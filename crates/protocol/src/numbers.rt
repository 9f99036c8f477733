// The papers' number for each cause.
ghost use Rattle.std.specs.Prelude.{◌≡◌};
ghost use Rattle.protocol.specs.Causes.{number_of};

use crate::Cause;

impl From<Cause> for u32 {
    ghost from_gives = { λ cause number. number ≡ number_of cause };

    fn from(cause: Cause) -> u32 {
        cause as u32
    }
}
