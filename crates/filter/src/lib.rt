// What a program does that reads its input and prints one text made of it.
#![tactic(auto)]

ghost use Rattle.std.specs.Prelude.{OnOk};
ghost use Rattle.filter.specs.Converting.{Converted};

use std::alloc::{AllocError, Global};
use std::io::{Read, Write};

// Reads so many bytes of the input at most, and writes the text that is made of them.
pub fn convert<R, W, F>(
    heap: Global,
    input: R,
    output: &mut W,
    most: u64,
    make: F,
) -> anyhow::Result<()>
where
    R: Read + Drop,
    W: Write,
    F: FnOnce(Global, &[u8]) -> Result<String, AllocError>,
    requires callable { F.IsAlwaysCallable make }
    ensures { OnOk result (Converted F.FnOnce make heap most (R.remaining input)
        (W.contents output.old) (W.contents output.new)) }
{
    let mut bytes = Vec::new(heap);
    input.take(most).read_to_end(&mut bytes)?;
    let text = make(heap, bytes.as_slice())?;
    output.write_all(text.as_bytes())?;
    Ok(())
}
