// Why a call is refused.
ghost use Rattle.std.specs.Prelude.{◌≤◌};

/// The reasons of docs/REFUSALS.md that are there for a file, each with its number.
#[derive(Clone, Copy, PartialEq, Eq, Debug)]
pub enum Refusal {
    InputTooLong = 1,
    UnknownKind = 2,
    BodyCutShort = 3,
    WrongStage = 4,
    AlreadyClosed = 5,
    FieldOutOfRange = 6,
    TooManyCalls = 7,
    LevelLimit = 8,
    NothingAtAddress = 9,
    LiteralNotKept = 10,
    UnknownInference = 11,
    NoCurrentFact = 12,
    NoSuchFact = 13,
    WrongRelation = 14,
    MultiplierNotPositive = 15,
    ConditionFails = 16,
    RowTooLarge = 17,
    TableFull = 18,
}

impl Refusal {
    // The number that is printed.
    pub fn number(self) -> usize
        ensures { result ≤ 18 }
    {
        self as usize
    }

    // Refused unless the condition holds.
    pub(crate) fn unless(self, holds: bool) -> Result<(), Refusal> {
        if holds { Ok(()) } else { Err(self) }
    }
}
