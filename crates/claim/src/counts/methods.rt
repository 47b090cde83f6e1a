ghost use Rattle.std.specs.Prelude.{◌≡◌, ◌+◌, ◌<◌, nat_le, Some};
ghost use Rattle.claim.specs.Counted.{place_of, NothingCounted, LiteralCounted, Counted, CallCounted};

use super::Counts;
use crate::step::Step;
use facts::Refusal;

// How many literals and steps a claim takes together.
pub const MOST_CALLS: u32 = 50_000;

impl Counts {
    pub fn none() -> Counts
        ensures { NothingCounted result }
    {
        Counts {
            literals: 0,
            steps: 0,
            splits: 0,
        }
    }

    pub fn literals(&self) -> u32
        ensures { result ≡ self.now.literals }
    {
        self.literals
    }

    pub fn steps(&self) -> u32
        ensures { result ≡ self.now.steps }
    {
        self.steps
    }

    pub fn splits(&self) -> u32
        ensures { result ≡ self.now.splits }
    {
        self.splits
    }

    // Literals and steps together.
    pub fn place(&self) -> u32
        ensures { result ≡ place_of self.now }
    {
        self.literals + self.steps
    }

    pub fn is_full(&self) -> bool
        ensures { result ≡ nat_le 50_000 (place_of self.now) }
    {
        self.place() >= MOST_CALLS
    }

    // The counts with one literal more.
    pub(crate) fn with_literal(self) -> Result<Counts, Refusal>
        ensures { CallCounted LiteralCounted self result }
    {
        if self.is_full() {
            return Err(Refusal::TooManyCalls);
        }
        Ok(Counts {
            literals: self.literals + 1,
            steps: self.steps,
            splits: self.splits,
        })
    }

    // The counts with one step more.
    pub(crate) fn with_step(self, step: Step) -> Result<Counts, Refusal>
        ensures { CallCounted (Counted (Some step)) self result }
    {
        if self.is_full() {
            return Err(Refusal::TooManyCalls);
        }
        let splits = match step {
            Step::Infer(_, _) => 0,
            Step::Split(_, _) => 1,
        };
        Ok(Counts {
            literals: self.literals,
            steps: self.steps + 1,
            splits: self.splits + splits,
        })
    }
}
