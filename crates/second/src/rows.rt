// The rules of rows, over fractions (theory 2) and over whole numbers (theory 3).
use crate::Arithmetic;
use crate::cause::Cause;
use crate::fact::{Names, Relation, Row, RowFact};
use crate::refusal::Refusal;
use crate::sent::Rule;
use crate::side::{Effect, Outcome, Side};
use std::cmp::Ordering;

// What a rule comes to from the facts and the current fact.
pub fn infer(
    arithmetic: Arithmetic,
    side: &Side<RowFact>,
    rule: Rule,
) -> Result<Outcome<RowFact>, Cause> {
    match (rule, arithmetic) {
        (Rule::Zero, _) => Ok(current(Row::constant(0), Relation::AtLeast)),
        (Rule::Add { fact, factor }, _) => add(side, fact, factor),
        (Rule::Antisymmetry { fact, names }, _) => antisymmetry(side, fact, names),
        (Rule::Falsify, _) => Ok(falsify(side)?),
        (Rule::Strengthen, Arithmetic::Whole) => Ok(strengthen(side)?),
        (Rule::Cut, Arithmetic::Whole) => Ok(cut(side)?),
        (Rule::Push, _) => Ok(side.push()?),
        _ => Err(Cause::from(Refusal::UnknownInference)),
    }
}

// What is kept of two names when their order is told.
pub fn told(names: Names, order: Ordering) -> RowFact {
    let (names, relation) = match order {
        Ordering::Less => (names.exchanged(), Relation::Above),
        Ordering::Equal => (names, Relation::Zero),
        Ordering::Greater => (names, Relation::Above),
    };
    let row = Row::difference(names);
    RowFact { row, relation }
}

// A row becomes current.
fn current(row: Row, relation: Relation) -> Outcome<RowFact> {
    Outcome::Current(RowFact { row, relation })
}

// Adds a multiple of a fact to the current row.
fn add(side: &Side<RowFact>, fact: u8, factor: i128) -> Result<Outcome<RowFact>, Cause> {
    let now = side.current()?;
    let fact = side.fact(fact)?;
    Refusal::MultiplierNotPositive.unless(fact.relation == Relation::Zero || factor > 0)?;
    Refusal::ConditionFails.unless(now.relation != Relation::Zero)?;
    let row = now.row.plus(factor, &fact.row);
    Refusal::RowTooLarge.unless(row.fits())?;
    match fact.relation {
        Relation::Above => Ok(current(row, Relation::Above)),
        _ => Ok(current(row, now.relation)),
    }
}

// Hands on n = m of a current k·n − k·m ≥ 0 and a fact j·m − j·n ≥ 0.
fn antisymmetry(side: &Side<RowFact>, fact: u8, names: Names) -> Result<Outcome<RowFact>, Cause> {
    let now = side.current()?;
    let fact = side.fact(fact)?;
    Refusal::WrongRelation.unless(fact.relation == Relation::AtLeast)?;
    let forward = now.relation == Relation::AtLeast && is_difference(&now.row, names);
    Refusal::ConditionFails.unless(forward && is_difference(&fact.row, names.exchanged()))?;
    Ok(Outcome::Beyond(Effect::HandOn(names)))
}

// Whether a row is a positive multiple of the first name less the second, another one.
fn is_difference(row: &Row, names: Names) -> bool {
    let multiple = row.coefficient(names.first);
    if names.first == names.second || multiple <= 0 {
        return false;
    }
    let rest = row.plus(multiple.saturating_neg(), &Row::difference(names));
    rest.constant == 0 && !rest.has_names()
}

// A contradiction of a current row that has no names and whose relation fails.
fn falsify(side: &Side<RowFact>) -> Result<Outcome<RowFact>, Refusal> {
    let now = side.current()?;
    Refusal::ConditionFails.unless(!now.row.has_names() && now.fails())?;
    Ok(Outcome::Beyond(Effect::Contradiction))
}

// From row > 0 to row − 1 ≥ 0.
fn strengthen(side: &Side<RowFact>) -> Result<Outcome<RowFact>, Refusal> {
    let now = side.current()?;
    Refusal::ConditionFails.unless(now.relation == Relation::Above)?;
    let row = now.row.plus(-1, &Row::constant(1));
    Refusal::RowTooLarge.unless(row.fits())?;
    Ok(current(row, Relation::AtLeast))
}

// Divides a row ≥ 0 by the greatest common divisor of its coefficients, and rounds the constant down.
fn cut(side: &Side<RowFact>) -> Result<Outcome<RowFact>, Refusal> {
    let now = side.current()?;
    Refusal::ConditionFails.unless(now.relation == Relation::AtLeast && now.row.has_names())?;
    let row = now.row.divided(now.row.divisor());
    Ok(current(row, Relation::AtLeast))
}
