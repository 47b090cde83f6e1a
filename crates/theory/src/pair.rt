ghost use Rattle.theory.specs.Pairs.{beside};
ghost use Rattle.theory.specs.Places.{Places};
ghost use Rattle.theory.specs.Rules.{Wanted, LiteralAnswer};
ghost use Rattle.std.proofs.Common.{rules};

use crate::inference::{Inference, Outcome};
use crate::interface::Theory;
use facts::{Cause, Comparison, Fact, Refusal};

// Two theories, which is a theory again: even address a is a/2 of the left one, odd address a is
// (a - 1)/2 of the right one. A literal or a telling is taken by both or by neither.
#[derive(Drop)]
pub struct Pair<L, R> {
    left: L,
    right: R,
}

// A literal's refusal from those of both sides: it is enough that one side keeps it, and too much
// if one side is full.
fn literal_refusal(left: Option<Refusal>, right: Option<Refusal>) -> Option<Refusal>
    ensures { (ps qs : Places) (w x : Wanted) → LiteralAnswer ps w left → LiteralAnswer qs x right → LiteralAnswer (beside ps qs) (beside w x) result }
{
    let full = Some(Refusal::TableFull);
    if left == full {
        left
    } else if left.is_some() {
        right
    } else if right == full {
        right
    } else {
        None
    }
}

impl<L: Theory, R: Theory> Theory for Pair<L, R> {
    ghost rules = { beside L.Theory.rules R.Theory.rules };

    ghost admits = { λ v. L.Theory.admits v × R.Theory.admits v };

    ghost places = { λ s. beside (L.Theory.places s.left) (R.Theory.places s.right) };

    ghost sound = { Prim.search rules };

    ghost stands = { Prim.search rules };

    fn fresh() -> Pair<L, R> {
        Pair {
            left: L::fresh(),
            right: R::fresh(),
        }
    }

    fn assume_refusal(&self, fact: &Fact) -> Option<Refusal> {
        literal_refusal(
            self.left.assume_refusal(fact),
            self.right.assume_refusal(fact),
        )
    }

    fn tell_refusal(&self, comparison: Comparison) -> Option<Refusal> {
        self.left
            .tell_refusal(comparison)
            .or_else(|| self.right.tell_refusal(comparison))
    }

    // the four calls below are not one function: the sides' types differ, so it would take a closure
    // for each
    fn assume(&mut self, fact: &Fact) -> Result<(), Refusal> {
        if let Some(refusal) = self.assume_refusal(fact) {
            return Err(refusal);
        }
        // a side that does not keep the literal refuses it, and stays as it was
        let _ = self.left.assume(fact);
        let _ = self.right.assume(fact);
        Ok(())
    }

    fn tell(&mut self, comparison: Comparison) -> Result<(), Refusal> {
        if let Some(refusal) = self.tell_refusal(comparison) {
            return Err(refusal);
        }
        // neither side refuses: both were asked
        let _ = self.left.tell(comparison);
        let _ = self.right.tell(comparison);
        Ok(())
    }

    fn infer(&mut self, address: usize, inference: Inference) -> Result<Outcome, Cause> {
        if address % 2 == 0 {
            self.left.infer(address / 2, inference)
        } else {
            self.right.infer((address - 1) / 2, inference)
        }
    }

    fn open_refusal(&self) -> Option<Refusal> {
        self.left
            .open_refusal()
            .or_else(|| self.right.open_refusal())
    }

    fn drop_refusal(&self) -> Option<Refusal> {
        self.left
            .drop_refusal()
            .or_else(|| self.right.drop_refusal())
    }

    fn push_level(&mut self) -> Result<(), Refusal> {
        if let Some(refusal) = self.open_refusal() {
            return Err(refusal);
        }
        // neither side refuses: both were asked
        let _ = self.left.push_level();
        let _ = self.right.push_level();
        Ok(())
    }

    fn pop_level(&mut self) -> Result<(), Refusal> {
        if let Some(refusal) = self.drop_refusal() {
            return Err(refusal);
        }
        // neither side refuses: both were asked
        let _ = self.left.pop_level();
        let _ = self.right.pop_level();
        Ok(())
    }
}
