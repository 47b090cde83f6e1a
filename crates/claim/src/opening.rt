// A claim that takes literals.
ghost use Rattle.std.specs.Prelude.{◌≡◌, ℕ, List, [], ◌∷◌, ◌++◌};
ghost use Rattle.std.specs.Option.{option_map};
ghost use Rattle.theory.specs.Places.{empty};
ghost use Rattle.claim.specs.Calls.{Answer, LiteralCall, answer_of};
ghost use Rattle.claim.specs.Counted.{place_of, NothingCounted};
ghost use Rattle.claim.specs.Derivations.{working};
ghost use Rattle.claim.specs.Derived.{state_of, Claimed, Reached};
ghost use Rattle.claim.specs.Histories.{if_taken};
ghost use Rattle.claim.specs.Views.{LiteralTaken};

use crate::counts::Counts;
use crate::derivation::Derivation;
use facts::{CallFault, Cause, Literal};
use theory::Theory;

#[derive(Drop)]
pub struct Claim<T> {
    theory: T,
    counts: Counts,
}

impl<T: Theory> Claim<T> {
    // A claim on a fresh theory.
    pub fn open() -> Claim<T>
        ensures places { (a : ℕ) → T.Theory.places result.theory a ≡ option_map (λ _. empty) (T.Theory.rules a) }
        ensures counts { NothingCounted result.counts }
        ensures history { Claimed T.Theory.places T.Theory.rules result [] [] [] }
    {
        Claim {
            theory: T::fresh(),
            counts: Counts::none(),
        }
    }

    // How much was taken so far.
    pub fn counts(&self) -> Counts
        ensures { result ≡ self.now.counts }
    {
        self.counts
    }

    // Takes a literal.
    pub fn literal(&mut self, literal: Literal) -> Result<(), CallFault>
        ensures call { LiteralCall T.Theory.rules (T.Theory.places self.old.theory) (place_of self.old.counts) literal result (T.Theory.places self.new.theory) }
        ensures after { LiteralTaken result self.old self.new }
        ensures history { (ls : List Literal) (rs : List Answer) (taken : List Literal) → Claimed T.Theory.places T.Theory.rules self.old ls rs taken → Claimed T.Theory.places T.Theory.rules self.new (ls ++ (literal ∷ [])) (rs ++ (result ∷ [])) (taken ++ if_taken result literal) }
    {
        self.take(literal).map_err(|cause| CallFault::unaddressed(cause, self.counts.place(), 0))
    }

    // Takes a literal, or says why not.
    fn take(&mut self, literal: Literal) -> Result<(), Cause>
        ensures call { LiteralCall T.Theory.rules (T.Theory.places self.old.theory) (place_of self.old.counts) literal (answer_of result 0 (place_of self.old.counts) 0) (T.Theory.places self.new.theory) }
        ensures after { LiteralTaken (answer_of result 0 (place_of self.old.counts) 0) self.old self.new }
    {
        let fact = literal.check()?;
        let counts = self.counts.with_literal()?;
        self.theory.assume(&fact)?;
        self.counts = counts;
        Ok(())
    }

    // Turns the claim into a derivation, in which no literal can be taken any more.
    pub fn begin(self) -> Derivation<T>
        ensures state { state_of T.Theory.places result ≡ working (T.Theory.places self.theory) [] }
        ensures counts { result.counts ≡ self.counts }
        ensures history { (ls : List Literal) (rs : List Answer) (taken : List Literal) → Claimed T.Theory.places T.Theory.rules self ls rs taken → Reached T.Theory.places T.Theory.rules result (T.Theory.places self.theory) taken [] [] [] }
    {
        let Claim { theory, counts } = self;
        Derivation::new(theory, counts)
    }
}
