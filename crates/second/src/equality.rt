// The rules of equality, theory 1.
use crate::cause::Cause;
use crate::fact::{Equation, Names, Term};
use crate::refusal::Refusal;
use crate::sent::{Position, Rule};
use crate::side::{Effect, Outcome, Side};
use std::cmp::Ordering;

// What a rule comes to from the facts and the current fact.
pub fn infer(side: &Side<Equation>, rule: Rule) -> Result<Outcome<Equation>, Cause> {
    match rule {
        Rule::Reflexivity { term } => Ok(Outcome::Current(Equation::equal(term, term))),
        Rule::Transitivity { fact, turned } => transitivity(side, fact, turned),
        Rule::Congruence {
            fact,
            position,
            turned,
        } => congruence(side, fact, position, turned),
        Rule::Clash { fact } => clash(side, fact),
        Rule::Propagate => Ok(propagate(side)?),
        Rule::Push => Ok(side.push()?),
        _ => Err(Cause::from(Refusal::UnknownInference)),
    }
}

// What is kept of two names when their order is told.
pub fn told(names: Names, order: Ordering) -> Equation {
    Equation {
        left: Term::Bare(names.first),
        right: Term::Bare(names.second),
        equal: order.is_eq(),
    }
}

// The fact with this number, an equality, turned if asked for.
fn equality(side: &Side<Equation>, fact: u8, turned: bool) -> Result<Equation, Cause> {
    let fact = side.fact(fact)?;
    Refusal::WrongRelation.unless(fact.equal)?;
    Ok(fact.turned(turned))
}

// From l = a and a = b to l = b.
fn transitivity(side: &Side<Equation>, fact: u8, turned: bool) -> Result<Outcome<Equation>, Cause> {
    let current = side.current()?;
    let fact = equality(side, fact, turned)?;
    Refusal::ConditionFails.unless(current.right == fact.left)?;
    Ok(Outcome::Current(Equation::equal(current.left, fact.right)))
}

// From l = f(.. a ..) and a = b to l = f(.. b ..).
fn congruence(
    side: &Side<Equation>,
    fact: u8,
    position: Position,
    turned: bool,
) -> Result<Outcome<Equation>, Cause> {
    let current = side.current()?;
    let fact = equality(side, fact, turned)?;
    let right = replaced(current.right, position, fact).ok_or(Refusal::ConditionFails)?;
    Ok(Outcome::Current(Equation::equal(current.left, right)))
}

// A term with the argument at a position, which has to be the bare left side of a fact, made the right one.
fn replaced(term: Term, position: Position, fact: Equation) -> Option<Term> {
    let (Term::Bare(old), Term::Bare(new)) = (fact.left, fact.right) else {
        return None;
    };
    match (term, position) {
        (Term::One(symbol, first), Position::First) if first == old => Some(Term::One(symbol, new)),
        (Term::Two(symbol, first, second), Position::First) if first == old => Some(Term::Two(
            symbol, new, second,
        )),
        (Term::Two(symbol, first, second), Position::Second) if second == old => Some(Term::Two(
            symbol, first, new,
        )),
        _ => None,
    }
}

// A contradiction of a current a = b, or b = a, with a ≠ b.
fn clash(side: &Side<Equation>, fact: u8) -> Result<Outcome<Equation>, Cause> {
    let current = side.current()?;
    let fact = side.fact(fact)?;
    Refusal::WrongRelation.unless(!fact.equal)?;
    let same = current.left == fact.left && current.right == fact.right;
    let crossed = current.left == fact.right && current.right == fact.left;
    Refusal::ConditionFails.unless(same || crossed)?;
    Ok(Outcome::Beyond(Effect::Contradiction))
}

// Hands on a current equality of two bare names.
fn propagate(side: &Side<Equation>) -> Result<Outcome<Equation>, Refusal> {
    let current = side.current()?;
    match (current.left, current.right) {
        (Term::Bare(first), Term::Bare(second)) => {
            Ok(Outcome::Beyond(Effect::HandOn(Names { first, second })))
        }
        _ => Err(Refusal::ConditionFails),
    }
}
