// What is done to lent rows behind the receiver's back.
use crate::game::Game;
use drawing::Random;

impl Game {
    // Every byte of both ends' rows is drawn, and then the first byte of each of the receiver's; both ends are set to the start, and the
    // receiver's opening slot above it.
    #[tactic(auto, unfolding(protocol::specs::Lengths::row_len))]
    pub(crate) fn draw_rows(&mut self, random: &mut Random, start: u32) {
        self.sent.draw(random);
        self.received.draw(random);
        let end = cuts::end(32768, self.received.cut);
        for place in (0..end).step_by(buffers::row_len(self.settings)) {
            self.received.bytes[place] = random.pick(&[1, 0, 7, 7, 7, 7, 7, 7]);
        }
        self.sender.due = start;
        self.receiver.opening = start.wrapping_add(7);
        self.receiver.due = start;
    }

    // Of lent rows, once in four times: the first byte of a drawn row.
    #[tactic(auto, unfolding(protocol::specs::Lengths::row_len, protocol::specs::Lengths::row_count, code::specs::Settings::k_of))]
    pub(crate) fn touch_rows(&mut self, random: &mut Random) {
        if self.lent && random.below(4) == 0 {
            let row = random.below(buffers::row_count(self.settings));
            let flag = random.pick(&[0, 1, 7, 2]);
            let size = buffers::row_len(self.settings);
            if let Some(first) = self.received.bytes.iter_mut().step_by(size).nth(row) {
                *first = flag;
            }
        }
    }
}
