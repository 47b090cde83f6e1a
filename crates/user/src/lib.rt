// A claim used from outside: every call in its order, and the ending told apart.
#![tactic(auto)]

ghost use Rattle.std.specs.Prelude.{◌≡◌};
ghost use Rattle.user.specs.Once.{LeftOpen};

use claim::{Claim, Ending, Seal, SentStep};
use facts::Literal;
use nowhere::Nowhere;

// What a seal counted.
fn keep(seal: Seal) -> (u32, u32, u32)
    ensures { result ≡ (seal.counts.literals, seal.counts.steps, seal.counts.splits) }
{
    (seal.literals(), seal.steps(), seal.splits())
}

// One literal and one step: the counts of the seal, or the number of branches left. Without rules
// there is no seal.
pub fn once(literal: Literal, step: SentStep) -> Result<(u32, u32, u32), u32>
    ensures { LeftOpen step result }
{
    let mut claim = Claim::<Nowhere>::open();
    let _ = claim.literal(literal);
    let mut derivation = claim.begin();
    let _ = derivation.step(step);
    match derivation.end() {
        Ending::Sealed(seal) => Ok(keep(seal)),
        Ending::Open(left) => Err(left),
    }
}
