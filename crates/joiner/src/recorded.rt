// A recording cut into frames, by their numbers.
ghost use Rattle.std.specs.Prelude.{◌≡◌, ◌+◌, ◌*◌, ◌≤◌, ◌<◌, length};
ghost use Rattle.protocol.specs.Lengths.{frame_len};
ghost use Rattle.aerials.specs.Pair.{frames_in, frame_of, slot_of};

use buffers::frame_len;
use code::Settings;

// A recording, and the settings by which its frames are cut.
#[derive(Clone, Copy)]
pub(crate) struct Recorded<'a> {
    pub(crate) settings: Settings,
    pub(crate) bytes: &'a [u8],
}

impl<'a> Recorded<'a> {
    // How many frames it has.
    pub(crate) fn len(self) -> usize
        ensures { result ≡ frames_in self.entry.settings self.entry.bytes.now }
    {
        self.bytes.len() / frame_len(self.settings)
    }

    // Frame number n, a part of it.
    pub(crate) fn frame(self, n: usize) -> &'a [u8]
        requires { n < frames_in self.settings self.bytes.now }
        ensures bytes { result.now ≡ frame_of self.entry.settings self.entry.bytes.now n }
        ensures long { 14 ≤ length result.now }
        ensures whose { result.ref_ptr.0 ≡ self.entry.bytes.ref_ptr.0 }
        ensures start { result.ref_ptr.1 ≡ self.entry.bytes.ref_ptr.1 + n * frame_len self.entry.settings }
    {
        let size = frame_len(self.settings);
        let start = n * size;
        &self.bytes[start..start + size]
    }

    // Its slot.
    pub(crate) fn slot(self, n: usize) -> u32
        requires { n < frames_in self.settings self.bytes.now }
        ensures { result ≡ slot_of self.entry.settings self.entry.bytes.now n }
    {
        frames::slot_of(self.frame(n))
    }
}
