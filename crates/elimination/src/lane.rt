// What the words that fit say of one symbol.
#[derive(Clone, Copy)]
pub enum Symbol {
    // No word fits.
    Clash,
    // Two fitting words differ in it.
    Lost,
    // The byte that the fitting words share.
    Whole(u8),
}
