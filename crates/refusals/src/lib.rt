// The refusals of documents 01 and 02 by name, each with its number.
#![tactic(auto)]

ghost use Rattle.std.specs.Prelude.{◌≡◌};
ghost use Rattle.refusals.specs.Refusals.{refusal_no};

#[derive(Clone, Copy, Debug, PartialEq, Eq)]
pub enum Refusal {
    // because of the input
    NotEventFile = 1,
    WrongVersion = 2,
    CutShort = 3,
    BadField = 4,
    Undeclared = 5,
    NotNext = 6,
    SourceIsTarget = 7,
    WrongSort = 8,
    TooEarly = 9,
    // because of the state
    EntitiesFull = 10,
    VersionsFull = 11,
    EdgesFull = 12,
    AcceptedFull = 13,
    BufferShort = 14,
    OutputShort = 15,
    Unsound = 16,
    // of document 02
    Signed = 17,
}

impl From<Refusal> for u32 {
    ghost from_gives = { λ r n. n ≡ refusal_no r };

    fn from(r: Refusal) -> u32 {
        r as u32
    }
}
