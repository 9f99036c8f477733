// The lines that a player prints, written over the start of a lent line; without room for it nothing changes. Document 01, "Playing a
// recording".
#![tactic(auto)]

mod text;

ghost use Rattle.std.specs.Prelude.{◌≡◌, ◌+◌, ◌*◌, leb};
ghost use Rattle.lines.specs.Lent.{line_on, stop_text_on, stop_on};

use protocol::{Cause, Told};
use text::{put_line, put_stop};

// Whether a line has room for the longest that this message buffer can give.
pub fn has_room(line: usize, message: usize) -> bool
    ensures { result ≡ leb (18 + 2 * message) line }
{
    line >= 18 && (line - 18) / 2 >= message
}

// The line of a report, and how long it is: 0 where the lent line has no room for the longest. The 0 is the length of what is printed, as
// `line_on` has it, and no number for a refusal.
pub fn write_line(about: u32, reply: Result<Told, Cause>, message: &[u8], line: &mut [u8]) -> usize
    ensures { record { line = line.new; len = result } ≡ line_on about reply message.now line.old }
{
    if has_room(line.len(), message.len()) {
        put_line(about, reply, message, line)
    } else {
        0
    }
}

// The line of a refusal by its number, and how long it is: 0 where the lent line has no room for any number's.
pub fn write_stop_number(n: u32, line: &mut [u8]) -> usize
    ensures { record { line = line.new; len = result } ≡ stop_text_on n line.old }
{
    if line.len() >= 16 {
        put_stop(n, line)
    } else {
        0
    }
}

// That of a cause.
pub fn write_stop(c: Cause, line: &mut [u8]) -> usize
    ensures { record { line = line.new; len = result } ≡ stop_on c line.old }
{
    write_stop_number(u32::from(c), line)
}
