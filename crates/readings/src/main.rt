// Prints what a list of reading records states: a line for each, then their number.
#![tactic(auto)]

use filter::convert;
use reading::{LONGEST_INPUT, report};

// One byte more than the longest input is enough to tell that an input is longer. No `From` goes from
// `usize` to `u64`.
fn main(rt: HostRuntime) -> anyhow::Result<()> {
    convert(
        rt.alloc(),
        rt.stdin(),
        &mut rt.stdout(),
        LONGEST_INPUT as u64 + 1,
        |heap, input| report(heap, input),
    )
}
