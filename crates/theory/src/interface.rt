ghost use Rattle.std.specs.Prelude.{◌≡◌, ℕ, is_some};
ghost use Rattle.facts.specs.Valuations.{Valuation};
ghost use Rattle.std.specs.Option.{option_map};
ghost use Rattle.theory.specs.Places.{Places, empty, opened, dropped};
ghost use Rattle.theory.specs.Rules.{Book, AllSound, literal_wanted, telling_wanted, LiteralAnswer, TellingAnswer, OpeningAnswer, DroppingAnswer, Took, Answered, outcome_at, ChangedAt, Stays};

use crate::inference::{Inference, Outcome};
use facts::{Cause, Comparison, Fact, Refusal};

// A theory: facts at addresses, and rules that say what follows from them. Anyone may implement it:
// the ghost members say what the implementation means, the laws what it shows of that, and each
// call's contract what it answers and all that stands at every address afterwards.
pub trait Theory: Sized {
    // the rules at each address
    ghost rules: { Book };

    // the valuations that the theory admits
    ghost admits: { Valuation → Type 0 };

    // what stands at each address
    ghost places: { Self → Places };

    // A new one, with one empty level and no current facts.
    fn fresh() -> Self
        ensures { (a : ℕ) → places result a ≡ option_map (λ _. empty) (rules a) };

    // Why a literal would be refused. A question is not refused itself, so no `Result`.
    fn assume_refusal(&self, fact: &Fact) -> Option<Refusal>
        ensures { LiteralAnswer (places self.now) (literal_wanted rules fact.now) result };

    // Why a telling would be refused.
    fn tell_refusal(&self, comparison: Comparison) -> Option<Refusal>
        ensures { TellingAnswer (places self.now) (telling_wanted rules comparison) result };

    // Adds a literal at every address that keeps it.
    fn assume(&mut self, fact: &Fact) -> Result<(), Refusal>
        ensures { Answered (LiteralAnswer (places self.old) (literal_wanted rules fact.now)) self.old self.new (Took (places self.old) (literal_wanted rules fact.now) (places self.new)) result };

    // Adds, at every address, what it keeps when it is told how two names compare.
    fn tell(&mut self, comparison: Comparison) -> Result<(), Refusal>
        ensures { Answered (TellingAnswer (places self.old) (telling_wanted rules comparison)) self.old self.new (Took (places self.old) (telling_wanted rules comparison) (places self.new)) result };

    // Applies a rule at one address.
    fn infer(&mut self, address: usize, inference: Inference) -> Result<Outcome, Cause>
        ensures outcome { result ≡ outcome_at rules (places self.old) address inference }
        ensures after { ChangedAt address result (places self.old) (places self.new) }
        ensures stays { Stays result self.old self.new };

    // Why a level cannot be opened, or dropped.
    fn open_refusal(&self) -> Option<Refusal>
        ensures { OpeningAnswer (places self.now) result };

    fn drop_refusal(&self) -> Option<Refusal>
        ensures { DroppingAnswer (places self.now) result };

    // Opens a level at every address, and clears all current facts.
    fn push_level(&mut self) -> Result<(), Refusal>
        ensures { Answered (OpeningAnswer (places self.old)) self.old self.new ((a : ℕ) → places self.new a ≡ option_map opened (places self.old a)) result };

    // Drops the newest level at every address, and clears all current facts.
    fn pop_level(&mut self) -> Result<(), Refusal>
        ensures { Answered (DroppingAnswer (places self.old)) self.old self.new ((a : ℕ) → places self.new a ≡ option_map dropped (places self.old a)) result };

    ghost sound: { AllSound admits rules };

    // something stands exactly at the addresses that have rules
    ghost stands: { (s : Self) (a : ℕ) → is_some (places s a) ≡ is_some (rules a) };
}
