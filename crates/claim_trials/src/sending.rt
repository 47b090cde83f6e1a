// Literals and steps that the trials of claims send, and what the calls answer.
use claim::{Claim, Derivation, SentStep};
use facts::{CallFault, Literal, Relation, SentPair, SentRow};
use linear::Whole;
use theory::Single;

pub(crate) type Rows = Single<Whole>;

// A row literal: a constant, and a multiple of n0.
pub(crate) fn row(how: Relation, constant: i32, coefficient: i32) -> Literal {
    let none = SentPair {
        name: 0,
        coefficient: 0,
    };
    let pairs = [
        SentPair {
            name: 0,
            coefficient,
        },
        none,
        none,
        none,
    ];
    Literal::Linear(how, SentRow { constant, pairs })
}

// -1 >= 0, which no valuation makes true
pub(crate) fn impossible() -> Literal {
    row(Relation::NonNegative, -1, 0)
}

// A refusal's number, detail, place and depth.
pub(crate) fn told(answer: Result<(), CallFault>) -> Option<(u8, u8, u32, u8)> {
    answer.err().map(|fault| {
        (
            fault.cause.refusal.number(),
            fault.cause.detail,
            fault.place,
            fault.depth,
        )
    })
}

// The steps that find a contradiction in a fact c >= 0 or c > 0.
pub(crate) fn refute() -> [SentStep; 3] {
    [
        SentStep::Zero(0),
        SentStep::Add(0, 0, 1),
        SentStep::Falsify(0),
    ]
}

// A derivation from one literal that is impossible.
pub(crate) fn begun() -> Derivation<Rows> {
    let mut claim = Claim::<Rows>::open();
    let _ = claim.literal(impossible());
    claim.begin()
}
