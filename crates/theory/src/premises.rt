ghost use Rattle.std.specs.Prelude.{◌≡◌, ◌≤◌, length, Some, None, MatchResult};
ghost use Rattle.std.specs.List.{slice_get};
ghost use Rattle.facts.specs.Faults.{because, cause_by};
ghost use Rattle.facts.specs.declared.refusal.Refusal.{Refusal};
ghost use Rattle.theory.specs.Premises.{no_such_fact};

use facts::{Cause, Fact, Refusal};

// What a rule starts from: the facts at its address, the oldest first, and the current fact.
#[derive(Clone, Copy)]
pub struct Premises<'a> {
    pub facts: &'a [Fact],
    pub current: &'a Option<Fact>,
}

// The refusal that says how many facts there are.
fn no_such_fact(facts: &[Fact]) -> Cause
    requires { length facts.now ≤ 255 }
    ensures { result ≡ no_such_fact (length facts.now) }
{
    Cause {
        detail: u8::try_from(facts.len()).unwrap(),
        ..Cause::from(Refusal::NoSuchFact)
    }
}

impl<'a> Premises<'a> {
    // The current fact, if there is one.
    pub fn current(self) -> Result<&'a Fact, Cause>
        ensures { MatchResult result (λ x. self.entry.current.now ≡ Some x.now) (λ cause. (self.entry.current.now ≡ None) × (cause ≡ because Refusal.NoCurrentFact)) }
    {
        self.current.as_ref().ok_or(Refusal::NoCurrentFact.into())
    }

    // The fact with a number, if there are so many.
    pub fn fact(self, number: u8) -> Result<&'a Fact, Cause>
        ensures { MatchResult result (λ x. slice_get self.entry.facts.now number ≡ Some x.now) (λ cause. (slice_get self.entry.facts.now number ≡ None) × (cause ≡ no_such_fact (length self.entry.facts.now))) }
    {
        match self.facts.get(usize::from(number)) {
            Some(fact) => Ok(fact),
            None => Err(no_such_fact(self.facts)),
        }
    }

    // The current fact, if there is one. The refusal carries a theory's number.
    pub fn current_for(self, theory: u8) -> Result<&'a Fact, Cause>
        ensures { MatchResult result (λ x. self.entry.current.now ≡ Some x.now) (λ cause. (self.entry.current.now ≡ None) × (cause ≡ cause_by theory (because Refusal.NoCurrentFact))) }
    {
        self.current().map_err(|cause| cause.by(theory))
    }

    // The fact with a number, if there are so many. The refusal carries a theory's number.
    pub fn fact_for(self, theory: u8, number: u8) -> Result<&'a Fact, Cause>
        ensures { MatchResult result (λ x. slice_get self.entry.facts.now number ≡ Some x.now) (λ cause. (slice_get self.entry.facts.now number ≡ None) × (cause ≡ cause_by theory (no_such_fact (length self.entry.facts.now)))) }
    {
        self.fact(number).map_err(|cause| cause.by(theory))
    }
}
