// The verdict on a file as text.
ghost use Rattle.claimfile.specs.Lines.{Reported};
ghost use Rattle.std.specs.Prelude.{IfOk, string_bytes};

use crate::checking::check;
use std::alloc::{AllocError, Global};
use theory::Theory;

// The line that is printed of a file, with its end.
pub fn report<T: Theory + Drop>(heap: Global, file: &[u8]) -> Result<String, AllocError>
    ensures { IfOk result (λ text. Reported T.Theory.admits T.Theory.rules file.now (string_bytes text)) }
{
    let verdict = check::<T>(file);
    format!(in heap; "{verdict}\n")
}
