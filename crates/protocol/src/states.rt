// The state of zeros, which a refused opening hands back: as specs/States.antt says.
use crate::{Receiver, Sender};
use code::Settings;

const NO_SETTINGS: Settings = Settings {
    window: 0,
    delay: 0,
    burst: 0,
    scattered: 0,
    lanes: 0,
};

impl Sender {
    pub const NONE: Sender = Sender {
        settings: NO_SETTINGS,
        due: 0,
    };
}

impl Receiver {
    pub const NONE: Receiver = Receiver {
        settings: NO_SETTINGS,
        opening: 0,
        due: 0,
    };
}
