// What is said of one symbol in all lanes, the worst last. `Symbol`, of one lane, has the byte; what protocol tells of a message can be
// none yet as well: three types, for the order is of this one alone.
#[derive(Clone, Copy, PartialEq, Eq, PartialOrd, Ord)]
pub enum Grade {
    // Every lane has a byte that its fitting words share.
    Whole,
    // Two fitting words of some lane differ in it.
    Lost,
    // No word fits in some lane.
    Clash,
}
