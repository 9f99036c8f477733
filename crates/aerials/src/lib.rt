// Two recordings of one meeting, by the first and the second aerial, document 02 §7. specs/ has the causes for which the pair is refused
// and the part that is lent for a slot, proofs/ their laws.
#![tactic(auto)]

ghost use Rattle.std.specs.Prelude.{◌≡◌};
ghost use Rattle.aerials.specs.Causes.{pair_number};

// Why a pair is refused, in the order of checking, each with its number, as `pair_number` of specs/Causes.antt says.
#[derive(Clone, Copy, Debug, PartialEq, Eq)]
pub enum PairCause {
    BadSettings = 1,
    BadLength = 2,
    OtherMark = 4,
    OtherSettings = 5,
    NotRising = 9,
    Unlike = 10,
}

impl From<PairCause> for u32 {
    ghost from_gives = { λ c n. n ≡ pair_number c };

    fn from(c: PairCause) -> u32 {
        c as u32
    }
}
