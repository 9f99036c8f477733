// The kinds of scenario.
use std::fmt;

// Both ends opened fresh at slot 0; rows that are lent with a history of their own; or a receiver that is opened late.
#[derive(Clone, Copy)]
pub(crate) enum Kind {
    Fresh,
    Lent,
    Late,
}

impl fmt::Display for Kind {
    fn fmt<W: fmt::Write>(&self, f: &mut fmt::Formatter<W>) -> fmt::Result {
        f.write_str(match self {
            Kind::Fresh => "fresh",
            Kind::Lent => "lent",
            Kind::Late => "late",
        })
    }
}
