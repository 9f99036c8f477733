// Both ends played through many calls, a line for each; reference/SCENARIOS.md says what is drawn and printed.
#![tactic(auto)]

mod buffer;
mod events;
mod faults;
mod game;
mod kind;
mod openings;
mod rows;

use code::Settings;
use drawing::Random;
use game::Game;
use kind::Kind;
use output::Output;
use std::io::{self, BufWriter, Write};

// What is drawn from, and printed to.
#[derive(Drop)]
pub(crate) struct Run<W> {
    pub(crate) random: Random,
    pub(crate) out: Output<W>,
}

impl<W: Write> Run<W> {
    // A scenario: its title, and all its calls.
    fn scenario(&mut self, s: Settings, kind: Kind, start: u32) {
        self.out.put(b"scenario");
        trace::settings(&mut self.out, s);
        writeln!(self.out, " {kind} {start}");
        match kind {
            Kind::Fresh => {
                let mut game = Game::opened(self, s, 0, false);
                game.rounds(self, 40);
            }
            Kind::Lent => {
                let mut game = Game::opened(self, s, 0, true);
                game.draw_rows(&mut self.random, start);
                game.rounds(self, 40);
            }
            Kind::Late => {
                let mut game = Game::opened(self, s, start, false);
                game.send_before(self, start);
                game.rounds(self, 20);
            }
        }
    }

    // The ten scenarios of a window and a code. The receiver that is opened late is opened at slot 1, at about as many slots as it has
    // rows, far on, and at the last slot.
    #[tactic(auto, unfolding(protocol::specs::Lengths::row_count, code::specs::Settings::k_of, code::specs::Settings::delay_of))]
    fn ten(&mut self, window: u8, delay: u8, burst: u8, scattered: u8) {
        let s = Settings {
            window,
            delay,
            burst,
            scattered,
            lanes: 1,
        };
        self.scenario(s, Kind::Fresh, 0);
        self.scenario(Settings { lanes: 64, ..s }, Kind::Fresh, 0);
        self.scenario(s, Kind::Lent, 0);
        self.scenario(Settings { lanes: 3, ..s }, Kind::Lent, 3999999970);
        let two = Settings { lanes: 2, ..s };
        let rows = buffers::row_count(two) as u32;
        for start in [
            1,
            rows.wrapping_sub(1),
            rows,
            rows.wrapping_add(1),
            2000000000,
            3999999999,
        ] {
            self.scenario(two, Kind::Late, start);
        }
    }
}

fn main(rt: HostRuntime) -> io::Result<()> {
    let out = Output::new(BufWriter::new(rt.alloc(), io::writer(&rt))?);
    let mut run = Run {
        random: Random(20261116),
        out,
    };
    run.ten(2, 1, 1, 1);
    run.ten(4, 3, 2, 2);
    run.ten(4, 3, 3, 2);
    run.ten(3, 2, 2, 1);
    run.ten(9, 8, 8, 1);
    run.ten(16, 15, 15, 15);
    run.ten(16, 15, 1, 1);
    // windows that are no longer than the delay that was set
    run.ten(3, 9, 2, 1);
    run.ten(4, 4, 2, 2);
    run.ten(12, 255, 8, 4);
    run.out.end()
}
