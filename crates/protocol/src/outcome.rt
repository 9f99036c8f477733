// What a call gives back that takes its state by value.
ghost use Rattle.std.specs.Prelude.{◌≡◌, Err};

use crate::Cause;

// What it answers, and the state after it.
#[derive(Clone, Copy)]
pub struct Outcome<T, S> {
    pub answer: Result<T, Cause>,
    pub state: S,
}

impl<T, S> Outcome<T, S> {
    // A refusal, with the state that goes with it.
    pub fn refused(cause: Cause, state: S) -> Outcome<T, S>
        ensures { result ≡ record { answer = Err cause; state = state } }
    {
        Outcome {
            answer: Err(cause),
            state,
        }
    }
}
