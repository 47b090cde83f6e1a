// Worked examples of what follows from the contracts, as one list with one result.
#![tactic(auto)]

ghost use Rattle.examples.specs.Examples.{AllHold, examples};

mod counts;
mod runs;
#[cfg(test)]
mod trials;

pub use counts::seal_counts;
pub use runs::{run_both, run_clipped, run_equality, run_rows};

// Every example holds.
pub fn examples_hold() -> u8
    ensures { AllHold examples }
{
    0
}
