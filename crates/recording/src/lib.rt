// A recording of frames, all of one length, back to back: what stands at an offset of it, and a reader that walks it without copying.
// The functions over the reader are thin: what stands at an offset is looked at in frame_at alone; next_frame has plain parameters.
#![tactic(auto)]

ghost use Rattle.std.specs.Prelude.{◌≡◌};
ghost use Rattle.recording.specs.Found.{found_at};

// The most that a recording may have: 64 KiB.
pub const LONGEST: usize = 65536;

// A reader walks a recording frame by frame, without copying it.
#[derive(Clone, Copy)]
pub struct Reader<'a> {
    pub recording: &'a [u8],
    pub offset: usize,
}

// What stands at an offset of a recording, in three cases, as `found_at` says; a part ends a recording as a refusal does, and is no error
// here.
#[derive(Clone, Copy)]
pub enum Found {
    // A whole frame, by the places where it starts and where the next one would.
    Frame { start: usize, end: usize },
    // Bytes, but fewer than a frame.
    Part,
    // Nothing: the recording has ended.
    End,
}

// What stands at an offset, for frames of a size. What is left is compared with the size, since their sum might not fit.
#[tactic(auto, using(std::proofs::lemmas::Bool::Decides::nat_tests), unfolding(crate::specs::Found::found_at))]
fn frame_at(recording: &[u8], offset: usize, size: usize) -> Found
    ensures { result ≡ found_at recording.now offset size }
{
    if recording.len() <= offset {
        Found::End
    } else if size == 0 || recording.len() - offset < size {
        Found::Part
    } else {
        Found::Frame {
            start: offset,
            end: offset + size,
        }
    }
}

impl<'a> Reader<'a> {
    // A reader at the start of a recording.
    pub fn from_start(recording: &'a [u8]) -> Reader<'a>
        ensures recording { result.recording ≡ recording.entry }
        ensures offset { result.offset ≡ 0 }
    {
        Reader {
            recording,
            offset: 0,
        }
    }

    // What stands where a reader is, for frames of a size.
    pub fn next(self, size: usize) -> Found
        ensures { result ≡ found_at self.entry.recording.now self.entry.offset size }
    {
        frame_at(self.recording, self.offset, size)
    }

    // The same recording, read from another offset.
    pub fn moved(self, offset: usize) -> Reader<'a>
        ensures recording { result.recording ≡ self.entry.recording }
        ensures offset { result.offset ≡ offset }
    {
        Reader { offset, ..self }
    }
}

// What a reader finds at an offset of a recording.
pub fn next_frame(recording: &[u8], offset: usize, size: usize) -> Found
    ensures { result ≡ found_at recording.now offset size }
{
    Reader::from_start(recording).moved(offset).next(size)
}
