ghost use Rattle.std.specs.Prelude.{◌≡◌};
ghost use Rattle.facts.specs.Valuations.{Valuation};
ghost use Rattle.theory.specs.Rules.{Rules, Sound};

use crate::inference::{Inference, Outcome};
use crate::premises::Premises;
use facts::{Cause, Comparison, Fact};

// The rules of a theory that stands at one address: what it decides, and why that is sound. Its
// facts are kept for it (see `Single`).
pub trait Logic: Sized {
    ghost rules: { Rules };

    ghost admits: { Valuation → Type 0 };

    fn new() -> Self;

    // The theory's number, which its refusals carry.
    fn number(&self) -> u8
        ensures { result ≡ rules.number };

    // Whether a literal is kept.
    fn keeps(&self, fact: &Fact) -> bool
        ensures { result ≡ rules.keeps fact.now };

    // The fact that is kept when it is told how two names compare.
    fn told(&self, comparison: Comparison) -> Option<Fact>
        ensures { result ≡ rules.told comparison };

    // What an inference comes to, or why it is refused.
    fn outcome(&self, inference: Inference, premises: Premises) -> Result<Outcome, Cause>
        ensures { result ≡ rules.outcome inference premises.entry.facts.now premises.entry.current.now };

    ghost sound: { Sound admits rules };
}
