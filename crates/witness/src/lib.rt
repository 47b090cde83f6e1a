// What a seal shows, by the contract of a whole run alone.
#![tactic(auto)]

ghost use Rattle.std.specs.Prelude.{◌≡◌, true, false, IfOk};
ghost use Rattle.theory.specs.Pairs.{beside};
ghost use Rattle.theory.specs.Singles.{alone};
ghost use Rattle.equality.specs.Equality.{equality_rules};
ghost use Rattle.linear.specs.Rules.{whole_rules};
ghost use Rattle.witness.specs.Excluded.{Excluded};

use claim::{Ending, SentStep, replay};
use equality::Equality;
use facts::Literal;
use linear::Whole;
use nowhere::Nowhere;
use std::alloc::{AllocError, Global};
use theory::{Pair, Single, Theory};

// Whether a run over any theory is sealed. If so, no valuation that the theory admits makes all the
// literals taken true.
pub fn sealed<T: Theory + Drop>(
    heap: Global,
    literals: &[Literal],
    steps: &[SentStep],
) -> Result<bool, AllocError>
    ensures { IfOk result (λ b. b ≡ true → Excluded T.Theory.admits T.Theory.rules literals.now) }
{
    let transcript = replay::<T>(heap, literals, steps)?;
    match transcript.ending {
        Ending::Sealed(_) => Ok(true),
        Ending::Open(_) => Ok(false),
    }
}

// Over equality and rows of whole numbers: no valuation by whole numbers makes them all true.
pub fn excluded(heap: Global, literals: &[Literal], steps: &[SentStep]) -> Result<bool, AllocError>
    ensures { IfOk result (λ b. b ≡ true → Excluded (λ v. v.denominator ≡ 1) (beside (alone equality_rules) (alone whole_rules)) literals.now) }
{
    sealed::<Pair<Single<Equality>, Single<Whole>>>(heap, literals, steps)
}

// Over a theory without rules no run is sealed: it takes no literal, and admits every valuation.
pub fn nothing_sealed(
    heap: Global,
    literals: &[Literal],
    steps: &[SentStep],
) -> Result<bool, AllocError>
    ensures { IfOk result (λ b. b ≡ false) }
{
    sealed::<Nowhere>(heap, literals, steps)
}
