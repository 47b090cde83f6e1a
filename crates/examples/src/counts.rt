// What a run ends in.
ghost use Rattle.std.specs.Prelude.{◌≡◌, IfOk};
ghost use Rattle.examples.specs.Examples.{both};
ghost use Rattle.examples.specs.Runs.{CountsTold, counts_in};

use claim::{Ending, Line, SentStep, replay};
use equality::Equality;
use facts::Literal;
use linear::Whole;
use std::alloc::{AllocError, Global};
use theory::{Pair, Single};

// The counts of the seal, if there is one.
fn counts_in(ending: Ending) -> Option<Line>
    ensures { result ≡ counts_in ending }
{
    match ending {
        Ending::Sealed(seal) => Some(Line::from(&seal)),
        Ending::Open(_) => None,
    }
}

// Over equality and rows of whole numbers: the counts of the seal that a run ends in, if it does.
pub fn seal_counts(
    heap: Global,
    literals: &[Literal],
    steps: &[SentStep],
) -> Result<Option<Line>, AllocError>
    ensures { IfOk result (CountsTold both literals.now steps.now) }
{
    let transcript = replay::<Pair<Single<Equality>, Single<Whole>>>(heap, literals, steps)?;
    Ok(counts_in(transcript.ending))
}
