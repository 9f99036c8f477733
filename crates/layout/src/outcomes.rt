// What a call leaves of the state that it was lent, and its number. Two functions of two lines each are plainer than one over both results,
// which takes a trait for the number of what is told, and its law. That the state has its length is a clause: `save_answer` and
// `save_reply`, which docs/ names, are lent any slice.
ghost use Rattle.std.specs.Prelude.{◌≡◌, length};
ghost use Rattle.protocol.specs.Histories.{is_accepted, accepts};
ghost use Rattle.protocol.specs.Numbers.{answer_number, reply_number};
ghost use Rattle.state.specs.State.{state_len, saved};

use crate::numbers::{answer_number, reply_number};
use protocol::{Cause, Told};
use state::{STATE_LEN, save};

// After an opening or a send, with the bytes of its state.
pub fn save_answer(answer: Result<(), Cause>, bytes: [u8; STATE_LEN], state: &mut [u8]) -> u32
    requires { length state.old ≡ state_len }
    ensures number { result ≡ answer_number answer }
    ensures state { state.new ≡ saved (is_accepted answer) bytes state.old }
{
    save(answer.is_ok(), bytes, state);
    answer_number(answer)
}

// After a report, with the bytes of its state.
pub fn save_reply(reply: Result<Told, Cause>, bytes: [u8; STATE_LEN], state: &mut [u8]) -> u32
    requires { length state.old ≡ state_len }
    ensures number { result ≡ reply_number reply }
    ensures state { state.new ≡ saved (accepts reply) bytes state.old }
{
    save(reply.is_ok(), bytes, state);
    reply_number(reply)
}
