// What each rule comes to. A refusal does not carry the theory's number yet.
ghost use Rattle.std.specs.Prelude.{◌≡◌};
ghost use Rattle.equality.specs.Equality.{oriented as oriented_by, by_equality, by_negation, transitivity as extended, congruence as rewritten, clash as opposed, propagation, inferred};

use crate::terms::{argument, replaced};
use facts::{Cause, Fact, Refusal};
use theory::{Inference, Outcome, Position, Premises};

// The fact, with its sides exchanged if it is an equality and turned.
fn oriented(fact: &Fact, turned: bool) -> Fact
    ensures { result ≡ oriented_by turned fact.now }
{
    match *fact {
        Fact::Equal(a, b) if turned => Fact::Equal(b, a),
        fact => fact,
    }
}

// T, at the current fact and another: a current l = a becomes l = b by a = b.
fn transitivity(current: &Fact, fact: &Fact, turned: bool) -> Result<Outcome, Cause>
    ensures { result ≡ by_equality (oriented_by turned fact.now) (λ a b. extended a b current.now) }
{
    let Fact::Equal(a, b) = oriented(fact, turned) else {
        return Err(Refusal::WrongRelation.into());
    };
    let Fact::Equal(left, right) = *current else {
        return Err(Refusal::ConditionFails.into());
    };
    if right != a {
        return Err(Refusal::ConditionFails.into());
    }
    Ok(Outcome::Current(Fact::Equal(left, b)))
}

// C, at the current fact and another: an argument a of the current right side becomes b by a = b of
// two names.
fn congruence(
    current: &Fact,
    fact: &Fact,
    position: Position,
    turned: bool,
) -> Result<Outcome, Cause>
    ensures { result ≡ by_equality (oriented_by turned fact.now) (λ a b. rewritten position a b current.now) }
{
    let Fact::Equal(from, to) = oriented(fact, turned) else {
        return Err(Refusal::WrongRelation.into());
    };
    let Fact::Equal(left, right) = *current else {
        return Err(Refusal::ConditionFails.into());
    };
    let a = from.bare_name().ok_or(Refusal::ConditionFails)?;
    let b = to.bare_name().ok_or(Refusal::ConditionFails)?;
    if argument(right, position).ok_or(Refusal::ConditionFails)? != a {
        return Err(Refusal::ConditionFails.into());
    }
    Ok(Outcome::Current(Fact::Equal(left, replaced(right, position, b))))
}

// N, at the current fact and another: a current a = b or b = a contradicts a != b.
#[tactic(auto, using(crate::proofs::Tests::same_test))]
fn clash(current: &Fact, fact: &Fact) -> Result<Outcome, Cause>
    ensures { result ≡ by_negation fact.now (λ a b. opposed a b current.now) }
{
    let Fact::Distinct(a, b) = *fact else {
        return Err(Refusal::WrongRelation.into());
    };
    let Fact::Equal(left, right) = *current else {
        return Err(Refusal::ConditionFails.into());
    };
    let sides = (left, right);
    if sides == (a, b) || sides == (b, a) {
        Ok(Outcome::Contradiction)
    } else {
        Err(Refusal::ConditionFails.into())
    }
}

// X, at the current fact: an equality of two names is handed on.
fn propagate(current: &Fact) -> Result<Outcome, Cause>
    ensures { result ≡ propagation current.now }
{
    let Fact::Equal(left, right) = *current else {
        return Err(Refusal::ConditionFails.into());
    };
    let n = left.bare_name().ok_or(Refusal::ConditionFails)?;
    let m = right.bare_name().ok_or(Refusal::ConditionFails)?;
    Ok(Outcome::Equal(n, m))
}

// What an inference comes to.
pub(crate) fn apply(inference: Inference, premises: Premises) -> Result<Outcome, Cause>
    ensures { result ≡ inferred inference premises.entry.facts.now premises.entry.current.now }
{
    match inference {
        Inference::Reflexivity(term) => Ok(Outcome::Current(Fact::Equal(term, term))),
        Inference::Transitivity(i, turned) => {
            transitivity(premises.current()?, premises.fact(i)?, turned)
        }
        Inference::Congruence(i, position, turned) => {
            congruence(premises.current()?, premises.fact(i)?, position, turned)
        }
        Inference::Clash(i) => clash(premises.current()?, premises.fact(i)?),
        Inference::Propagate => propagate(premises.current()?),
        Inference::Push => Ok(Outcome::Pushed(*premises.current()?)),
        Inference::Zero
        | Inference::Add(_, _)
        | Inference::Antisymmetry(_, _, _)
        | Inference::Falsify
        | Inference::Strengthen
        | Inference::Cut => Err(Refusal::UnknownInference.into()),
    }
}
