// What can be played: one recording, buffer by buffer, or a pair, line by line.
ghost use Rattle.std.specs.Prelude.{◌≡◌, false, ℕ, ◌+◌, ◌*◌, ◌≤◌, ◌<◌, length, T, ⊤, IfOk, IfSome};
ghost use Rattle.code.specs.declared.settings.Settings.{Settings};
ghost use Rattle.code.specs.Settings.{accepted};
ghost use Rattle.aerials.specs.Pair.{pair_cause};
ghost use Rattle.progress.specs.declared.Player.{Player};
ghost use Rattle.player.proofs.StepsLeft.{steps_left};
ghost use Rattle.pairplay.proofs.Left.{pair_left};

use code::Settings;
use progress::{Player, Progress};

pub(crate) trait Recorded {
    // Whether it is accepted with these settings.
    ghost accepts: { Self → Settings → Type 0 };

    // How much of it a player has left.
    ghost left: { Self → Player → ℕ };

    // The settings that it is played with, if it is not empty, or the number of the cause that refuses it,
    // since the causes of one recording and of a pair are two types, and a line of `stop` has the number alone.
    fn start(&self) -> Result<Option<Settings>, u32>
        ensures { IfOk result (λ o. IfSome o (λ s. T (accepted s) × accepts self.now s)) };

    // Plays a part, which is printed over the start of a buffer that has room for the longest line.
    fn play_on(&self, p: Player, rows: &mut [u8], message: &mut [u8], out: &mut [u8]) -> Progress
        requires { accepts self.now p.receiver.settings × (18 + 2 * length message.old ≤ length out.old) }
        ensures len { result.len ≤ length out.old }
        ensures more { result.over ≡ false
            → accepts self.now result.player.receiver.settings × (left self.now result.player < left self.now p) };
}

// A recording is played to where the longest line may not fit into what is left of the buffer.
#[derive(Clone, Copy)]
pub(crate) struct One<'a>(pub(crate) &'a [u8]);

impl<'a> Recorded for One<'a> {
    ghost accepts = { λ _ _. ⊤ };

    ghost left = { λ r p. steps_left r.0.now p };

    fn start(&self) -> Result<Option<Settings>, u32> {
        Ok(stops::examine(self.0)?)
    }

    fn play_on(&self, p: Player, rows: &mut [u8], message: &mut [u8], out: &mut [u8]) -> Progress {
        player::fill(p, self.0, rows, message, out)
    }
}

// A pair is played by one step.
#[derive(Clone, Copy)]
pub(crate) struct Two<'a>(pub(crate) &'a [u8], pub(crate) &'a [u8]);

impl<'a> Recorded for Two<'a> {
    ghost accepts = { λ r s. pair_cause s r.0.now r.1.now ≡ 0 };

    ghost left = { λ r p. pair_left r.0.now r.1.now p };

    fn start(&self) -> Result<Option<Settings>, u32> {
        Ok(pairs::examine(self.0, self.1)?)
    }

    fn play_on(&self, p: Player, rows: &mut [u8], message: &mut [u8], out: &mut [u8]) -> Progress {
        pairs::step(p, self.0, self.1, rows, message, out)
    }
}
