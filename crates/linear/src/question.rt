ghost use Rattle.std.specs.Prelude.{◌≡◌, Some, None, Decides, MatchOption};
ghost use Rattle.facts.specs.Valuations.{Compares};
ghost use Rattle.linear.specs.Cut.{Nameless};
ghost use Rattle.linear.specs.Deciding.{holds};
ghost use Rattle.linear.specs.Forms.{does_contradict};
ghost use Rattle.linear.specs.Rules.{may_multiply, joined, row_that, keeps};

use facts::{Fact, Relation, Row};
use theory::Factor;

// Whether no coefficient is other than 0.
fn is_nameless(row: &Row) -> bool
    ensures { Decides result (Nameless row.now) }
{
    row.coefficients()
        .iter()
        .all(|coefficient| *coefficient == 0)
}

// Whether a number compares so with 0.
fn compares(how: Relation, number: i64) -> bool
    ensures { Decides result (Compares how number) }
{
    match how {
        Relation::NonNegative => number >= 0,
        Relation::Positive => number > 0,
        Relation::Zero => number == 0,
    }
}

// Whether the row has no names, and does not compare so with 0.
pub(crate) fn contradicts(how: Relation, row: &Row) -> bool
    ensures { result ≡ holds (does_contradict how row.now) }
{
    is_nameless(row) && !compares(how, row.constant())
}

// Whether a row that compares so with 0 may be multiplied by the factor.
pub(crate) fn may_multiply(how: Relation, factor: Factor) -> bool
    ensures { result ≡ may_multiply how factor.value }
{
    match how {
        Relation::NonNegative | Relation::Positive => factor.value() > 0,
        Relation::Zero => true,
    }
}

// How a row compares with 0 after one with another relation was added to it.
pub(crate) fn join(relation: Relation, how: Relation) -> Relation
    ensures { result ≡ joined relation how }
{
    match how {
        Relation::Positive => Relation::Positive,
        Relation::NonNegative | Relation::Zero => relation,
    }
}

// The row of a fact that says that it compares so with 0.
pub(crate) fn row_that(how: Relation, fact: &Fact) -> Option<&Row>
    ensures { MatchOption result (row_that how fact.now ≡ None) (λ x. row_that how fact.now ≡ Some x.now) }
{
    match fact {
        Fact::Linear(relation, row) if *relation == how => Some(row),
        _ => None,
    }
}

// Whether a fact is one of rows.
pub(crate) fn is_linear(fact: &Fact) -> bool
    ensures { result ≡ keeps fact.now }
{
    matches!(fact, Fact::Linear(_, _))
}
