// A file checked by both checkers.
use crate::tally::Tally;
use claimfile::report;
use equality::Equality;
use linear::{Fractions, Whole};
use second::Arithmetic;
use std::alloc::{AllocError, Global};
use theory::{Pair, Single};

type OverFractions = Pair<Single<Equality>, Single<Fractions>>;

type OverWhole = Pair<Single<Equality>, Single<Whole>>;

// The line of the first checker. Theories are types, so a value is turned into one by a match.
fn first_line(heap: Global, arithmetic: Arithmetic, file: &[u8]) -> Result<String, AllocError> {
    match arithmetic {
        Arithmetic::Fractions => report::<OverFractions>(heap, file),
        Arithmetic::Whole => report::<OverWhole>(heap, file),
    }
}

// Checks a file over fractions and over whole numbers, by both checkers.
pub fn compare(heap: Global, file: &[u8], tally: &mut Tally) -> Result<(), AllocError> {
    for arithmetic in [Arithmetic::Fractions, Arithmetic::Whole] {
        let first = first_line(heap, arithmetic, file)?;
        let verdict = second::check(heap, arithmetic, file)?;
        let second = format!(in heap; "{verdict}\n")?;
        tally.add(verdict, first.as_str() == second.as_str());
    }
    Ok(())
}
