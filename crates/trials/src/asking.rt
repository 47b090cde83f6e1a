// How the trials of theories ask, and what they are answered.
use facts::{Cause, Comparison, Fact, Name, Refusal, Relation, Row, Symbol, Term};
use std::process::Abort;
use std::test::Fail;
use theory::{Factor, Inference, Outcome, Theory};

// An answer's number, detail and theory. The number is 0 where an inference is taken, 100 for a
// contradiction, 101 for an equality that is handed on, with its two names, and else the refusal's.
// Numbers, since these trials hold refusals to the numbers that docs/ lists; 100 and 101 are none of them.
pub(crate) type Answer = (u8, u8, u8);

pub(crate) const TAKEN: Answer = (0, 0, 0);

pub(crate) const CONTRADICTION: Answer = (100, 0, 0);

// A call, and what it is to be answered: an answer, a refusal's number, or 0 if it is taken.
#[derive(Clone, Copy)]
pub(crate) enum Step {
    Infer(usize, Inference, Answer),
    // a row becomes current, with this constant and these multiples of n0 and n1
    Gives(usize, Inference, (i64, i64, i64)),
    Assume(Fact, u8),
    // so many times, and each time it is taken
    Fill(u8, Fact),
    Tell(Comparison, u8),
    Open(u8),
    Drop(u8),
}

fn answer(outcome: Result<Outcome, Cause>) -> Answer {
    match outcome {
        Ok(Outcome::Current(_) | Outcome::Pushed(_)) => TAKEN,
        Ok(Outcome::Equal(n, m)) => (101, n.index(), m.index()),
        Ok(Outcome::Contradiction) => CONTRADICTION,
        Err(cause) => (cause.refusal.number(), cause.detail, cause.theory),
    }
}

// The number of a refusal, or 0.
fn number(res: Result<(), Refusal>) -> u8 {
    match res {
        Ok(()) => 0,
        Err(refusal) => refusal.number(),
    }
}

fn fill<T: Theory>(rt: &impl Abort, theory: &mut T, times: u8, fact: &Fact) -> Result<(), Fail> {
    for _ in 0..times {
        assert_eq!(rt; number(theory.assume(fact)), 0);
    }
    Ok(())
}

fn take<T: Theory>(rt: &impl Abort, theory: &mut T, step: Step) -> Result<(), Fail> {
    match step {
        Step::Infer(address, inference, wanted) => {
            assert_eq!(rt; answer(theory.infer(address, inference)), wanted);
            Ok(())
        }
        Step::Gives(address, inference, wanted) => {
            assert_eq!(rt; numbers(theory.infer(address, inference)), Some(wanted));
            Ok(())
        }
        Step::Assume(fact, wanted) => {
            assert_eq!(rt; number(theory.assume(&fact)), wanted);
            Ok(())
        },
        Step::Fill(times, fact) => fill(rt, theory, times, &fact),
        Step::Tell(comparison, wanted) => {
            assert_eq!(rt; number(theory.tell(comparison)), wanted);
            Ok(())
        },
        Step::Open(wanted) => {
            assert_eq!(rt; number(theory.push_level()), wanted);
            Ok(())
        },
        Step::Drop(wanted) => {
            assert_eq!(rt; number(theory.pop_level()), wanted);
            Ok(())
        },
    }
}

// Takes the steps one after the other, from a new theory on.
pub(crate) fn run<T: Theory + Drop>(rt: &impl Abort, steps: &[Step]) -> Result<(), Fail> {
    let mut theory = T::fresh();
    for step in steps {
        take(rt, &mut theory, *step)?;
    }
    Ok(())
}

pub(crate) fn name(index: u8) -> Name {
    let Some(name) = Name::new(index % 32) else {
        return unreachable();
    };
    name
}

pub(crate) fn bare(index: u8) -> Term {
    Term::Bare(name(index))
}

fn symbol() -> Symbol {
    let Some(symbol) = Symbol::new(15) else {
        return unreachable();
    };
    symbol
}

pub(crate) fn unary(first: u8) -> Term {
    Term::Unary(symbol(), name(first))
}

pub(crate) fn binary(first: u8, second: u8) -> Term {
    Term::Binary(symbol(), name(first), name(second))
}

// The row of a constant, a multiple of n0 and one of n1.
pub(crate) fn row(how: Relation, constant: i64, first: i64, second: i64) -> Fact {
    let mut coefficients = [0; 32];
    coefficients[0] = first;
    coefficients[1] = second;
    match Row::new(constant, coefficients) {
        Some(row) => Fact::Linear(how, row),
        // not a row, so that no trial of rows goes on
        None => Fact::Equal(bare(0), bare(0)),
    }
}

// M: a multiple of a fact is added. A factor out of range is taken as another rule.
pub(crate) fn add(fact: u8, factor: i32) -> Inference {
    match Factor::new(factor) {
        Some(factor) => Inference::Add(fact, factor),
        None => Inference::Propagate,
    }
}

pub(crate) fn antisymmetry(fact: u8, first: u8, second: u8) -> Inference {
    Inference::Antisymmetry(fact, name(first), name(second))
}

// The constant of a row that became current, and its multiples of n0 and n1.
fn numbers(outcome: Result<Outcome, Cause>) -> Option<(i64, i64, i64)> {
    let Ok(Outcome::Current(Fact::Linear(_, row))) = outcome else {
        return None;
    };
    Some((
        row.constant(),
        row.coefficient(name(0)),
        row.coefficient(name(1)),
    ))
}
