ghost use Rattle.equality.specs.Equality.{equality_rules, admitted};
ghost use Rattle.equality.specs.Soundness.{equality_sound};

use crate::steps::apply;
use facts::{Cause, Comparison, Fact, Term};
use theory::{Inference, Logic, Outcome, Premises};

// The theory's number.
const NUMBER: u8 = 1;

// The rules of equality, which keeps t = u and t != u.
#[derive(Clone, Copy)]
pub struct Equality;

impl Logic for Equality {
    ghost rules = { equality_rules };

    ghost admits = { admitted };

    ghost sound = { equality_sound };

    fn new() -> Equality {
        Equality
    }

    fn number(&self) -> u8 {
        NUMBER
    }

    fn keeps(&self, fact: &Fact) -> bool {
        matches!(fact, Fact::Equal(_, _) | Fact::Distinct(_, _))
    }

    fn told(&self, comparison: Comparison) -> Option<Fact> {
        match comparison {
            Comparison::Less(n, m) | Comparison::Greater(n, m) => {
                Some(Fact::Distinct(Term::Bare(n), Term::Bare(m)))
            }
            Comparison::Equal(n, m) => Some(Fact::Equal(Term::Bare(n), Term::Bare(m))),
        }
    }

    fn outcome(&self, inference: Inference, premises: Premises) -> Result<Outcome, Cause> {
        apply(inference, premises).map_err(|cause| cause.by(NUMBER))
    }
}
