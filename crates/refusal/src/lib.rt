// What every call shares: the refusals, one case for each condition of document 01's table and of the change requests, each with its number.
#![tactic(auto)]

ghost use Rattle.refusal.specs.Numbers.{numbers};

// A call's answer is a `Result` with this error: `Result<(), Refusal>` where the call only writes, `Result<u16, Refusal>` where it gives a number.
#[derive(Clone, Copy, Debug, PartialEq, Eq)]
pub enum Refusal {
    UnknownCode = 1,
    UnknownRule = 2,
    RuleNotOfCode = 3,
    InputLength = 4,
    WordTooShort = 5,
    MessageSlack = 6,
    TooManyPairs = 7,
    OutputLength = 8,
    WorkTooShort = 9,
    PairLength = 10,
    PairOrder = 11,
    PairPastEnd = 12,
    Malformed = 13,
    SumPastLimit = 14,
    NoFrames = 15,
    ErasureByte = 16,
    ByteOutOfRange = 17,
    NotEighths = 18,
    NoSuchPlace = 19,
    GroupSizes = 20,
}

// The refusal's number, as narrow as it can be and as the lines of text take it.
impl From<Refusal> for u8 {
    ghost from_gives = { numbers };

    fn from(r: Refusal) -> u8 {
        r as u8
    }
}

impl From<Refusal> for u16 {
    ghost from_gives = { numbers };

    fn from(r: Refusal) -> u16 {
        r as u16
    }
}
