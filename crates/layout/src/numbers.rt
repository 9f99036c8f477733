// The number of each answer and reply.
ghost use Rattle.std.specs.Prelude.{◌≡◌};
ghost use Rattle.protocol.specs.Numbers.{answer_number, reply_number};

use protocol::{Cause, Told};

// The number of what an opening or a send answers.
pub(crate) fn answer_number(answer: Result<(), Cause>) -> u32
    ensures { result ≡ answer_number answer }
{
    match answer {
        Ok(()) => 0,
        Err(c) => u32::from(c),
    }
}

// The number of what a report or a look-up answers.
pub fn reply_number(reply: Result<Told, Cause>) -> u32
    ensures { result ≡ reply_number reply }
{
    match reply {
        Err(c) => u32::from(c),
        Ok(Told::NoneYet) => 16,
        Ok(Told::Whole) => 17,
        Ok(Told::Lost) => 18,
        Ok(Told::Clash) => 19,
    }
}
