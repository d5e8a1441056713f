// Why there is no record and no header: the answers that every operation shares, and the papers' numbers for them.
#![tactic(auto)]

ghost use Rattle.std.specs.Prelude.{◌≡◌, []};
ghost use Rattle.rules.specs.Rule.{lacks};
ghost use Rattle.error.specs.Number.{number_of, stop_of};
ghost use Rattle.error.specs.declared.Stopped.TheVariants.{Refused};

// The numbers are document 01's, those from 17 on the requests'.
#[derive(Clone, Copy, Debug, PartialEq, Eq)]
pub enum Refusal {
    UnknownKind = 1,
    SizeWordZero = 2,
    HeaderTooSmall = 3,
    HeaderTooLarge = 4,
    UnknownEdition = 5,
    BelowEditionMinimum = 6,
    TextTooLong = 7,
    NotUtf8 = 8,
    ArrayHeaderTooSmall = 9,
    TooManyScans = 10,
    MsCountTooSmall = 11,
    UvStartAboveEnd = 12,
    UvStepZero = 13,
    // a due field ends past the last bytes
    Incomplete = 14,
    // lent memory: a buffer that is too small, or columns of unequal lengths
    LentLength = 15,
    UnknownText = 16,
    // a value that is no whole number below 2^53 in size, or a sum on the way outside 64 bits
    SumOutOfRange = 17,
    // an atlas reading of a kind other than DAD and UV
    KindWithoutAtlas = 18,
    // a window of time whose end comes before its start
    WindowReversed = 19,
}

// The answers without an outcome.
#[derive(Clone, Copy, Debug, PartialEq, Eq)]
pub enum Stopped {
    Refused(Refusal),
    Finished,
    MoreBytes,
}

impl From<Refusal> for u8 {
    ghost from_gives = { λ r n. n ≡ number_of r };

    fn from(r: Refusal) -> u8 {
        r as u8
    }
}

impl From<Refusal> for Stopped {
    ghost from_gives = { λ r z. z ≡ Refused r };

    fn from(r: Refusal) -> Stopped {
        Stopped::Refused(r)
    }
}

// What is answered where a due field ends past the bytes, told whether they are the last, by whether the file may end before it.
pub fn lacking(last: bool, may_end: bool) -> Stopped
    ensures { stop_of result ≡ lacks last may_end [] }
{
    match (last, may_end) {
        (false, _) => Stopped::MoreBytes,
        (true, false) => Stopped::Refused(Refusal::Incomplete),
        (true, true) => Stopped::Finished,
    }
}
