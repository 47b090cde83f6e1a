//! A second checker of claim files, which shares nothing with the first but the description of the format
//! in docs/. It holds facts in plain vectors, and copies them for each branch of a split.
#![tactic(auto)]

ghost use Rattle.std.specs.Prelude.{◌<◌, ◌≤◌, length, IfOk};

mod cause;
mod claim;
mod equality;
mod fact;
mod fields;
mod kind;
mod refusal;
mod rows;
mod sent;
mod side;
mod state;
mod verdict;

use cause::Stop;
pub use cause::{Cause, Theory};
use claim::Claim;
use fields::Fields;
use kind::Kind;
pub use refusal::Refusal;
use std::alloc::{AllocError, Global};
pub use verdict::{Taken, Verdict};

/// The most bytes of a file.
pub const LONGEST_FILE: usize = 32_768;

/// What stands at address 1: rows over fractions, theory 2, or over whole numbers, theory 3.
#[derive(Clone, Copy, PartialEq, Eq, Debug)]
pub enum Arithmetic {
    Fractions,
    Whole,
}

impl Arithmetic {
    // Its theory.
    fn theory(self) -> Theory {
        match self {
            Arithmetic::Fractions => Theory::Fractions,
            Arithmetic::Whole => Theory::Whole,
        }
    }
}

// Takes the record that begins at an offset, and tells where the next one begins.
fn take_at(claim: &mut Claim, file: &[u8], offset: usize) -> Result<usize, Stop>
    requires { offset < length file.now }
    ensures { IfOk result (λ end. (offset < end) × (end ≤ length file.now)) }
{
    let (kind, length) = Kind::of(file[offset]).ok_or(Refusal::UnknownKind)?;
    let begin = offset + 1;
    let end = begin + length;
    let body = file.get(begin..end).ok_or(Refusal::BodyCutShort)?;
    claim.take(kind, &mut Fields::of(body))?;
    Ok(end)
}

/// Checks a file: takes its records one after the other until one is refused or the file ends.
pub fn check(heap: Global, arithmetic: Arithmetic, file: &[u8]) -> Result<Verdict, AllocError> {
    let mut claim = Claim::new(heap, arithmetic);
    let mut offset = 0;
    if file.len() > LONGEST_FILE {
        return Ok(claim.refused(offset, Cause::from(Refusal::InputTooLong)));
    }
    // A kind fixes the length of its records, so no iterator of the library goes from one to the next.
    while offset < file.len() {
        match take_at(&mut claim, file, offset) {
            Ok(end) => offset = end,
            Err(Stop::Refused(cause)) => return Ok(claim.refused(offset, cause)),
            Err(Stop::Memory) => return Err(AllocError),
        }
    }
    Ok(claim.verdict())
}
