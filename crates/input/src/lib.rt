// Reading a file to its end: one that is open, as standard input, or one that an argument names.
#![tactic(auto)]

ghost use Rattle.std.specs.Prelude.{◌≡◌, ◌≤◌, ◌<◌, length, take, IfOk, MatchResult};
ghost use Rattle.std.specs.Io.KnownBytes.{Consumes, IsAtEnd};

use std::env::FillError;
use std::io::{Error, ErrorKind, Read};
use std::rt::{Env, Files};
use std::{fs, str};

// Why a read failed, and how much was read before it.
#[derive(Clone, Copy)]
pub struct Cut {
    pub len: usize,
    pub why: Error,
}

// Where a file can't be opened, nothing was read.
impl From<Error> for Cut {
    ghost from_gives = { λ why cut. cut ≡ record { len = 0; why = why } };

    fn from(why: Error) -> Cut {
        Cut { len: 0, why }
    }
}

// Reads until the end, or until the buffer is full; a read may deliver only a piece. The bytes of the buffer are the system's to write,
// and are all left open here, those behind the ones that were read too.
pub fn read_all<R: Read>(reader: &mut R, buf: &mut [u8]) -> Result<usize, Cut>
    ensures len { MatchResult result (λ n. n ≤ length buf.new) (λ cut. cut.len ≤ length buf.new) }
    ensures bytes { MatchResult result (λ n. Consumes (R.remaining reader.old) (R.remaining reader.new) (take n buf.new))
        (λ cut. Consumes (R.remaining reader.old) (R.remaining reader.new) (take cut.len buf.new)) }
    ensures end { IfOk result (λ n. n < length buf.new → IsAtEnd (R.remaining reader.new)) }
{
    let mut done: usize = 0;
    while done < buf.len() {
        match reader.read(&mut buf[done..]) {
            Ok(0) => return Ok(done),
            Ok(n) => done += n,
            Err(why) => return Err(Cut { len: done, why }),
        }
    }
    Ok(done)
}

// Tells on standard error what could not be read, and why; where that fails too, there is nowhere left to tell it.
fn told(rt: &impl Eprint, what: &str, cut: Cut) -> Cut
    ensures { result ≡ cut }
{
    let why = cut.why;
    let _ = eprintln!(rt; "{what}: {why}");
    cut
}

// Argument i, which is put at the start of a buffer.
fn name_of<'a>(rt: &impl Env, i: usize, path: &'a mut [u8]) -> Result<&'a str, Error> {
    let len = match rt.arg(i, path) {
        Ok(len) => len,
        Err(FillError::NotPresent) => return Err(Error::from(ErrorKind::InvalidInput)),
        Err(FillError::TooLong) => return Err(Error::from(ErrorKind::InvalidFilename)),
    };
    str::from_utf8(&path[..len]).map_err(|_| Error::from(ErrorKind::InvalidFilename))
}

// Reads the file of this name.
fn read_file(rt: &impl Files, name: &str, buf: &mut [u8]) -> Result<usize, Cut>
    ensures { MatchResult result (λ n. n ≤ length buf.new) (λ cut. cut.len ≤ length buf.new) }
{
    let mut file = fs::open(rt, name)?;
    read_all(&mut file, buf)
}

// Reads the file that argument i names; where that cannot be done, it is told on standard error. The bytes of the buffer are left open.
pub fn read_named<R: Env + Files + Eprint>(rt: &R, i: usize, buf: &mut [u8]) -> Result<usize, Cut>
    ensures { MatchResult result (λ n. n ≤ length buf.new) (λ cut. cut.len ≤ length buf.new) }
{
    let mut path = [0u8; 4096];
    match name_of(rt, i, &mut path) {
        Ok(name) => read_file(rt, name, buf).map_err(|cut| told(rt, name, cut)),
        Err(why) => Err(told(rt, "play: a file's name", Cut::from(why))),
    }
}
