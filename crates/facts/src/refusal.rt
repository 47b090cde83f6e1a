ghost use Rattle.std.specs.Prelude.{◌≡◌};
ghost use Rattle.facts.specs.Refusals.{refusal_number, refusal_layer};

// Why a call is refused. The check that fails first decides, in this order.
#[derive(Clone, Copy, PartialEq, Eq, Debug)]
pub enum Refusal {
    InputTooLong,
    UnknownKind,
    BodyCutShort,
    WrongStage,
    AlreadyClosed,
    FieldOutOfRange,
    TooManyCalls,
    LevelLimit,
    NothingAtAddress,
    LiteralNotKept,
    UnknownInference,
    NoCurrentFact,
    NoSuchFact,
    WrongRelation,
    MultiplierNotPositive,
    ConditionFails,
    RowTooLarge,
    TableFull,
    SheetFull,
}

// The part of the checker that refuses.
#[derive(Clone, Copy, PartialEq, Eq, Debug)]
pub enum Layer {
    Program,
    Reader,
    Claim,
    Address,
    Theory,
    Table,
    Sheet,
}

impl Refusal {
    // The number that a refusal is printed by. No other refusal has it.
    pub fn number(self) -> u8
        ensures value { result ≡ refusal_number self }
        ensures one { (r : Refusal) → refusal_number r ≡ result → r ≡ self }
    {
        match self {
            Refusal::InputTooLong => 1,
            Refusal::UnknownKind => 2,
            Refusal::BodyCutShort => 3,
            Refusal::WrongStage => 4,
            Refusal::AlreadyClosed => 5,
            Refusal::FieldOutOfRange => 6,
            Refusal::TooManyCalls => 7,
            Refusal::LevelLimit => 8,
            Refusal::NothingAtAddress => 9,
            Refusal::LiteralNotKept => 10,
            Refusal::UnknownInference => 11,
            Refusal::NoCurrentFact => 12,
            Refusal::NoSuchFact => 13,
            Refusal::WrongRelation => 14,
            Refusal::MultiplierNotPositive => 15,
            Refusal::ConditionFails => 16,
            Refusal::RowTooLarge => 17,
            Refusal::TableFull => 18,
            Refusal::SheetFull => 19,
        }
    }

    pub fn layer(self) -> Layer
        ensures { result ≡ refusal_layer self }
    {
        match self {
            Refusal::InputTooLong => Layer::Program,
            Refusal::UnknownKind | Refusal::BodyCutShort | Refusal::WrongStage => Layer::Reader,
            Refusal::AlreadyClosed
            | Refusal::FieldOutOfRange
            | Refusal::TooManyCalls
            | Refusal::LevelLimit => Layer::Claim,
            Refusal::NothingAtAddress | Refusal::LiteralNotKept => Layer::Address,
            Refusal::UnknownInference
            | Refusal::NoCurrentFact
            | Refusal::NoSuchFact
            | Refusal::WrongRelation
            | Refusal::MultiplierNotPositive
            | Refusal::ConditionFails
            | Refusal::RowTooLarge => Layer::Theory,
            Refusal::TableFull => Layer::Table,
            Refusal::SheetFull => Layer::Sheet,
        }
    }
}
