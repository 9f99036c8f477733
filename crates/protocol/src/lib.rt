// The states of both ends, why a call says no, and what it tells. Each call is a definition in specs/, the demands are statements about
// these definitions, and proofs/ has their theorems.
#![tactic(auto)]

mod numbers;
mod outcome;
mod states;

use code::Settings;
pub use outcome::Outcome;

// A slot's number.
#[derive(Clone, Copy)]
pub struct Slot(pub u32);

impl Slot {
    // The last slot.
    pub const LAST: Slot = Slot(3_999_999_999);
}

// What the sender keeps: its settings, and the slot due.
#[derive(Clone, Copy)]
pub struct Sender {
    pub settings: Settings,
    pub due: u32,
}

// What the receiver keeps: its settings, the slot that it was opened at, and the slot due.
#[derive(Clone, Copy)]
pub struct Receiver {
    pub settings: Settings,
    pub opening: u32,
    pub due: u32,
}

// Why a call says no, in the order of checking, each with its number, as `number_of` of specs/Causes.antt says.
#[derive(Clone, Copy)]
pub enum Cause {
    BadSettings = 1,
    BadLength = 2,
    PastLastSlot = 3,
    OtherMark = 4,
    OtherSettings = 5,
    OtherSlot = 6,
    LateOpening = 7,
    OutOfReach = 8,
}

// What a report or a look-up that was accepted tells of its message.
#[derive(Clone, Copy)]
pub enum Told {
    NoneYet,
    Whole,
    Lost,
    Clash,
}
