// Plays the recording on standard input, buffer by buffer, or the pair of recordings that two arguments name, line by line.
#![tactic(auto)]

mod recorded;

ghost use Rattle.std.specs.Prelude.{◌≡◌, ◌+◌, ◌*◌, ◌≤◌, length, T};
ghost use Rattle.code.specs.Settings.{accepted};

use buffers::{message_len, receiver_len};
use code::Settings;
use progress::Progress;
use recorded::{One, Recorded, Two};
use std::env::FillError;
use std::rt::{Env, Files};

// Whether there is an argument i.
fn has_argument(rt: &impl Env, i: usize) -> bool {
    !matches!(rt.arg(i, &mut []), Err(FillError::NotPresent))
}

// Writes to standard output; where that fails, nothing more is played.
fn put(rt: &impl Print, bytes: &[u8]) -> Result<(), &'static str> {
    rt.write_all(bytes)
        .map_err(|_| "standard output cannot be written")
}

// What passes the tests before any line, with buffers for any settings, which are cut to its own: each part is written out, to the last,
// and each leaves less to play.
fn play_parts<R: Recorded>(
    rt: &impl Print,
    recorded: &R,
    s: Settings,
    rows: &mut [u8],
    message: &mut [u8],
    out: &mut [u8],
) -> Result<(), &'static str>
    requires { T (accepted s) × R.accepts recorded.now s
        × (30750 ≤ length rows.old) × (960 ≤ length message.old) × (1938 ≤ length out.old) }
{
    let rows = &mut rows[..receiver_len(s)];
    let message = &mut message[..message_len(s)];
    let mut p = steps::begin(s, rows, message);
    loop {
        let Progress { player, len, over } = recorded.play_on(p, rows, message, out);
        put(rt, &out[..len])?;
        if over {
            return Ok(());
        }
        p = player;
    }
}

// All of it.
fn play<R: Recorded>(rt: &impl Print, recorded: &R) -> Result<(), &'static str> {
    let mut rows = [0u8; 30750];
    let mut message = [0u8; 960];
    let mut out = [0u8; 65536];
    match recorded.start() {
        Ok(None) => Ok(()),
        Ok(Some(s)) => play_parts(rt, recorded, s, &mut rows, &mut message, &mut out),
        Err(n) => {
            let len = lines::write_stop_number(n, &mut out);
            put(rt, &out[..len])
        }
    }
}

// One byte more than a recording may have is read, to see that it is longer.
fn play_input(rt: &(impl Input + Print)) -> Result<(), &'static str> {
    let mut read = [0u8; 65537];
    let len = input::read_all(&mut rt.reader(), &mut read).map_err(
        |_| "standard input cannot be read",
    )?;
    play(rt, &One(&read[..len]))
}

// The same of each of a pair. A file that cannot be read was told of already, and nothing is played.
fn play_named<R: Env + Files + Print + Eprint>(rt: &R) -> Result<(), &'static str> {
    if has_argument(rt, 3) {
        return Err("more than two recordings");
    }
    let mut first = [0u8; 65537];
    let mut second = [0u8; 65537];
    match (
        input::read_named(rt, 1, &mut first),
        input::read_named(rt, 2, &mut second),
    ) {
        (Ok(a), Ok(b)) => play(rt, &Two(&first[..a], &second[..b])),
        _ => Ok(()),
    }
}

// Why nothing more is played is told on standard error; where that fails too, there is nowhere left to tell it.
fn main(rt: HostRuntime) {
    let played = if has_argument(&rt, 2) {
        play_named(&rt)
    } else {
        play_input(&rt)
    };
    if let Err(why) = played {
        let _ = eprintln!(rt; "play: {why}");
    }
}
