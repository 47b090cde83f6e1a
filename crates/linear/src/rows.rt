ghost use Rattle.linear.specs.Rules.{admitted, domain_of, row_rules};
ghost use Rattle.linear.specs.Soundness.{row_sound};

use crate::domain::Domain;
use crate::question::is_linear;
use crate::rule::{infer, keep_told};
use facts::{Cause, Comparison, Fact};
use theory::{Inference, Logic, Outcome, Premises};

// The theory of rows over names whose values are whole numbers, or else fractions with one
// denominator. A const parameter is an integer or a bool, so a flag says which.
#[derive(Clone, Copy)]
pub struct Rows<const WHOLE: bool>;

pub type Fractions = Rows<false>;

pub type Whole = Rows<true>;

impl<const WHOLE: bool> Logic for Rows<WHOLE> {
    ghost rules = { row_rules (domain_of WHOLE) };

    ghost admits = { admitted (domain_of WHOLE) };

    ghost sound = { row_sound (domain_of WHOLE) };

    fn new() -> Rows<WHOLE> {
        Rows
    }

    fn number(&self) -> u8 {
        Domain::of(WHOLE).number()
    }

    fn keeps(&self, fact: &Fact) -> bool {
        is_linear(fact)
    }

    fn told(&self, comparison: Comparison) -> Option<Fact> {
        keep_told(comparison)
    }

    fn outcome(&self, inference: Inference, premises: Premises) -> Result<Outcome, Cause> {
        infer(Domain::of(WHOLE), inference, premises)
    }
}
