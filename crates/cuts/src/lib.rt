// A call in buffers of which some bytes at the end are not lent: what it starts from, and the length that a cut leaves.
#![tactic(auto)]

ghost use Rattle.std.specs.Prelude.{◌≡◌};
ghost use Rattle.cuts.specs.Cuts.{end_of};

use code::Settings;

// The state that a call starts from, a receiver's with its opening slot, and what is not lent of the rows and of the two things after them.
// What these two are each definition of specs/ says for its call, so that they have no names of their own.
#[derive(Clone, Copy)]
pub struct Call {
    pub settings: Settings,
    pub opening: u32,
    pub due: u32,
    pub rows: usize,
    pub first: usize,
    pub second: usize,
}

// The length that is left.
pub fn end(length: usize, cut: usize) -> usize
    ensures { result ≡ end_of length cut }
{
    length.saturating_sub(cut)
}
