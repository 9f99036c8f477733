// Text on its way to a writer. A write that fails ends the output: nothing more is written, and the error is told at the end.
#![tactic(auto)]

ghost use Rattle.std.specs.Prelude.{◌≡◌, ◌/◌, ◌%◌, [], ◌∷◌, false, IsOk, OnOk, OnErr, IfSome};
ghost use Rattle.std.specs.Fmt.{digit_glyph};
ghost use Rattle.std.specs.Io.KnownBytes.{Appends};

use std::fmt::Display;
use std::io::{self, Write};

// A writer, and how the writes went so far.
#[derive(Drop)]
pub struct Output<W> {
    pub writer: W,
    pub written: io::Result<()>,
}

impl<W: Write> Output<W> {
    pub fn new(writer: W) -> Output<W>
        ensures writer { result.writer ≡ writer }
        ensures begun { IsOk result.written }
    {
        Output {
            writer,
            written: Ok(()),
        }
    }

    // Bytes as they are.
    pub fn put(&mut self, bytes: &[u8])
        ensures written { OnOk self.new.written (Appends (W.contents self.old.writer) (W.contents self.new.writer) bytes.now) }
        ensures ended { OnErr self.old.written (self.new ≡ self.old) }
    {
        if self.written.is_ok() {
            self.written = self.writer.write_all(bytes);
        }
    }

    // A format, by `write!`.
    pub fn write_fmt<D: Display>(&mut self, text: D)
    where
        D: Drop,
        ensures written { OnOk self.new.written (IfSome (D.output text)
            (Appends (W.contents self.old.writer) (W.contents self.new.writer))) }
        ensures ended { OnErr self.old.written (self.new ≡ self.old) }
    {
        if self.written.is_ok() {
            self.written = self.writer.write_fmt(text);
        }
    }

    // A byte in two hex digits, in lower case.
    pub fn put_hex(&mut self, byte: u8)
        ensures written { OnOk self.new.written (Appends (W.contents self.old.writer) (W.contents self.new.writer)
            (digit_glyph false (byte / 16) ∷ digit_glyph false (byte % 16) ∷ [])) }
        ensures ended { OnErr self.old.written (self.new ≡ self.old) }
    {
        if self.written.is_ok() {
            self.written = write!(self.writer, "{byte:02x}");
        }
    }

    // Writes out what is buffered, and tells whether all was written.
    pub fn end(mut self) -> io::Result<()>
    where
        W: Drop,
        ensures { OnOk result (IsOk self.written) }
    {
        self.written?;
        self.writer.flush()
    }
}
