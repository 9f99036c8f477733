// The writers of lines, over the start of a lent line that has room. The room is a clause here and in the steps above: the line is any
// slice, and where the next one begins in it moves on.
ghost use Rattle.std.specs.Prelude.{◌++◌, ◌+◌, ◌*◌, ◌≤◌, length};
ghost use Rattle.numbers.specs.Digits.{decimal};
ghost use Rattle.lines.specs.Text.{stop_text, line_of, Writes};
ghost use Rattle.lines.specs.Lent.{stop_room};

use buffers::write_at;
use numbers::{write_decimal, write_hex};
use protocol::{Cause, Told};

// A number in decimal, then a word.
fn write_word(about: u32, word: &[u8], line: &mut [u8]) -> usize
    requires { 10 + length word.now ≤ length line.old }
    ensures { Writes (decimal about ++ word.now) line.old result line.new }
{
    let at = write_decimal(about, line, 0);
    write_at(line, at, word);
    at + word.len()
}

// The line of a message that is whole.
fn write_whole(about: u32, message: &[u8], line: &mut [u8]) -> usize
    requires { 18 + 2 * length message.now ≤ length line.old }
    ensures { Writes (line_of about (Ok Told.Whole) message.now) line.old result line.new }
{
    let start = write_word(about, b" whole ", line);
    let end = write_hex(message, line, start);
    line[end] = b'\n';
    end + 1
}

// A line of `stop`, a space and the number, where there is room for any number's.
pub(crate) fn put_stop(n: u32, line: &mut [u8]) -> usize
    requires { stop_room ≤ length line.old }
    ensures { Writes (stop_text n) line.old result line.new }
{
    write_at(line, 0, b"stop ");
    let at = write_decimal(n, line, 5);
    line[at] = b'\n';
    at + 1
}

// What an accepted report prints of the message that it tells of.
fn put_told(about: u32, told: Told, message: &[u8], line: &mut [u8]) -> usize
    requires { 18 + 2 * length message.now ≤ length line.old }
    ensures { Writes (line_of about (Ok told) message.now) line.old result line.new }
{
    match told {
        Told::NoneYet => 0,
        Told::Whole => write_whole(about, message, line),
        Told::Lost => write_word(about, b" lost\n", line),
        Told::Clash => write_word(about, b" clash\n", line),
    }
}

// What a report prints, where there is room for the longest line.
pub(crate) fn put_line(
    about: u32,
    reply: Result<Told, Cause>,
    message: &[u8],
    line: &mut [u8],
) -> usize
    requires { 18 + 2 * length message.now ≤ length line.old }
    ensures { Writes (line_of about reply message.now) line.old result line.new }
{
    match reply {
        Err(c) => put_stop(u32::from(c), line),
        Ok(told) => put_told(about, told, message, line),
    }
}
