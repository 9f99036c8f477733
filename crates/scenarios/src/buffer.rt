// A lent buffer, longer than what it is for.
use drawing::Random;

// The bytes, and how many of them at the end are zeros behind what the buffer is for.
#[derive(Drop)]
pub(crate) struct Buffer<const N: usize> {
    pub(crate) bytes: [u8; N],
    pub(crate) cut: usize,
}

impl<const N: usize> Buffer<N> {
    // So many bytes, drawn.
    pub(crate) fn drawn(length: usize, random: &mut Random) -> Buffer<N> {
        let mut buffer = Buffer {
            bytes: [0; N],
            cut: cuts::end(N, length),
        };
        buffer.draw(random);
        buffer
    }

    // Draws what the buffer is for anew.
    pub(crate) fn draw(&mut self, random: &mut Random) {
        let end = cuts::end(N, self.cut);
        random.fill(&mut self.bytes[..end]);
    }
}
