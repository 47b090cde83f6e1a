// A theory that stands at no address, written from the public items of `theory` alone: it keeps
// nothing, is told without effect, and has no rules.
#![tactic(auto)]

ghost use Rattle.nowhere.specs.Nothing.{no_rules, no_places, admits_all};
ghost use Rattle.std.proofs.Common.{rules};

use facts::{Cause, Comparison, Fact, Refusal};
use theory::{Inference, Outcome, Theory};

#[derive(Clone, Copy)]
pub struct Nowhere;

impl Theory for Nowhere {
    ghost rules = { no_rules };

    ghost admits = { admits_all };

    ghost places = { λ _. no_places };

    ghost sound = { Prim.search rules };

    ghost stands = { Prim.search rules };

    fn fresh() -> Nowhere {
        Nowhere
    }

    fn assume_refusal(&self, _fact: &Fact) -> Option<Refusal> {
        Some(Refusal::LiteralNotKept)
    }

    fn tell_refusal(&self, _comparison: Comparison) -> Option<Refusal> {
        None
    }

    fn assume(&mut self, _fact: &Fact) -> Result<(), Refusal> {
        Err(Refusal::LiteralNotKept)
    }

    fn tell(&mut self, _comparison: Comparison) -> Result<(), Refusal> {
        Ok(())
    }

    fn infer(&mut self, _address: usize, _inference: Inference) -> Result<Outcome, Cause> {
        Err(Refusal::NothingAtAddress.into())
    }

    fn open_refusal(&self) -> Option<Refusal> {
        None
    }

    fn drop_refusal(&self) -> Option<Refusal> {
        None
    }

    fn push_level(&mut self) -> Result<(), Refusal> {
        Ok(())
    }

    fn pop_level(&mut self) -> Result<(), Refusal> {
        Ok(())
    }
}
