ghost use Rattle.std.specs.Prelude.{◌≡◌};
ghost use Rattle.facts.specs.declared.refusal.Refusal.{Refusal};
ghost use Rattle.theory.specs.Premises.{numbered};
ghost use Rattle.linear.specs.Rules.{becomes, added, both_ways, at_least, above, falsified, strengthened, divided, told, outcome};

use crate::cut::cut;
use crate::difference::{difference, is_difference};
use crate::domain::Domain;
use crate::question::{contradicts, join, may_multiply, row_that};
use crate::sum::{lower, sum, zero};
use facts::{Cause, Comparison, Fact, Name, Refusal, Relation, Row};
use theory::{Factor, Inference, Outcome, Premises};

// The row becomes current, if there is one.
fn make_current(theory: u8, how: Relation, row: Option<Row>) -> Result<Outcome, Cause>
    ensures { result ≡ numbered theory (becomes how row) }
{
    match row {
        Some(row) => Ok(Outcome::Current(Fact::Linear(how, row))),
        None => Err(Cause::from(Refusal::RowTooLarge).by(theory)),
    }
}

// M, at the current fact and another.
fn add(theory: u8, factor: Factor, current: &Fact, fact: &Fact) -> Result<Outcome, Cause>
    ensures { result ≡ numbered theory (added factor.value current.now fact.now) }
{
    let Fact::Linear(how, row) = fact else {
        return Err(Cause::from(Refusal::WrongRelation).by(theory));
    };
    if !may_multiply(*how, factor) {
        return Err(Cause::from(Refusal::MultiplierNotPositive).by(theory));
    }
    match current {
        Fact::Linear(Relation::Zero, _) | Fact::Equal(_, _) | Fact::Distinct(_, _) => {
            Err(Cause::from(Refusal::ConditionFails).by(theory))
        }
        Fact::Linear(relation, old) => make_current(
            theory,
            join(*relation, *how),
            sum(old, factor, row),
        ),
    }
}

// Q, at the current fact and another.
fn antisymmetry(theory: u8, n: Name, m: Name, current: &Fact, fact: &Fact) -> Result<Outcome, Cause>
    ensures { result ≡ numbered theory (both_ways n m (at_least current.now) (at_least fact.now)) }
{
    let below = row_that(Relation::NonNegative, fact).ok_or(Cause::from(Refusal::WrongRelation).by(
        theory,
    ))?;
    let row = row_that(Relation::NonNegative, current).ok_or(Cause::from(
        Refusal::ConditionFails,
    ).by(theory))?;
    if is_difference(row, n, m) && is_difference(below, m, n) {
        Ok(Outcome::Equal(n, m))
    } else {
        Err(Cause::from(Refusal::ConditionFails).by(theory))
    }
}

// F, at the current fact.
fn falsify(theory: u8, current: &Fact) -> Result<Outcome, Cause>
    ensures { result ≡ numbered theory (falsified current.now) }
{
    match current {
        Fact::Linear(how, row) if contradicts(*how, row) => Ok(Outcome::Contradiction),
        _ => Err(Cause::from(Refusal::ConditionFails).by(theory)),
    }
}

// I, over whole numbers alone, at the current fact.
fn strengthen(theory: u8, current: &Fact) -> Result<Outcome, Cause>
    ensures { result ≡ numbered theory (strengthened (above current.now)) }
{
    let row = row_that(Relation::Positive, current).ok_or(Cause::from(Refusal::ConditionFails).by(
        theory,
    ))?;
    make_current(theory, Relation::NonNegative, lower(row))
}

// U, over whole numbers alone, at the current fact.
fn divide(theory: u8, current: &Fact) -> Result<Outcome, Cause>
    ensures { result ≡ numbered theory (divided (at_least current.now)) }
{
    let row = row_that(Relation::NonNegative, current).ok_or(Cause::from(
        Refusal::ConditionFails,
    ).by(theory))?;
    let quotient = cut(row).ok_or(Cause::from(Refusal::ConditionFails).by(theory))?;
    Ok(Outcome::Current(Fact::Linear(Relation::NonNegative, quotient)))
}

// What an inference comes to, in the theory over these values.
pub(crate) fn infer(
    domain: Domain,
    inference: Inference,
    premises: Premises,
) -> Result<Outcome, Cause>
    ensures { result ≡ outcome domain inference premises.entry.facts.now premises.entry.current.now }
{
    let theory = domain.number();
    match (inference, domain) {
        (Inference::Zero, _) => Ok(Outcome::Current(Fact::Linear(Relation::NonNegative, zero()))),
        (Inference::Add(index, factor), _) => {
            let current = premises.current_for(theory)?;
            add(theory, factor, current, premises.fact_for(theory, index)?)
        }
        (Inference::Antisymmetry(index, n, m), _) => {
            let current = premises.current_for(theory)?;
            antisymmetry(theory, n, m, current, premises.fact_for(theory, index)?)
        }
        (Inference::Falsify, _) => falsify(theory, premises.current_for(theory)?),
        (Inference::Strengthen, Domain::Whole) => {
            strengthen(theory, premises.current_for(theory)?)
        }
        (Inference::Cut, Domain::Whole) => divide(theory, premises.current_for(theory)?),
        (Inference::Push, _) => Ok(Outcome::Pushed(*premises.current_for(theory)?)),
        _ => Err(Cause::from(Refusal::UnknownInference).by(theory)),
    }
}

// The fact that is kept when a theory over rows is told how two names compare.
pub(crate) fn keep_told(comparison: Comparison) -> Option<Fact>
    ensures { result ≡ told comparison }
{
    match comparison {
        Comparison::Equal(n, m) => Some(Fact::Linear(Relation::Zero, difference(n, m))),
        Comparison::Less(n, m) => Some(Fact::Linear(Relation::Positive, difference(m, n))),
        Comparison::Greater(n, m) => Some(Fact::Linear(Relation::Positive, difference(n, m))),
    }
}
