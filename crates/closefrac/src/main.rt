// Prints the verdict on a claim file, over equality at address 0 and rows over fractions at 1.
#![tactic(auto)]

ghost use Rattle.std.specs.Prelude.{IfOk, string_bytes};
ghost use Rattle.theory.specs.Pairs.{beside};
ghost use Rattle.theory.specs.Singles.{alone};
ghost use Rattle.equality.specs.Equality.{equality_rules};
ghost use Rattle.linear.specs.Rules.{fraction_rules};
ghost use Rattle.claimfile.specs.Lines.{Reported};

use claimfile::{LONGEST_FILE, report};
use equality::Equality;
use filter::convert;
use linear::Fractions;
use std::alloc::{AllocError, Global};
use theory::{Pair, Single};

// The line of a file. Established means that no valuation makes all its literals
// true.
fn line(heap: Global, file: &[u8]) -> Result<String, AllocError>
    ensures { IfOk result (λ text. Reported (λ _. Unit {0}) (beside (alone equality_rules) (alone fraction_rules)) file.now (string_bytes text)) }
{
    report::<Pair<Single<Equality>, Single<Fractions>>>(heap, file)
}

// One byte more than the longest file is enough to tell that a file is longer. No `From` goes from
// `usize` to `u64`.
fn main(rt: HostRuntime) -> anyhow::Result<()> {
    convert(
        rt.alloc(),
        rt.stdin(),
        &mut rt.stdout(),
        LONGEST_FILE as u64 + 1,
        line,
    )
}
