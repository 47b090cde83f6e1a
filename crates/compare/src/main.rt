// Runs two checkers over the same files, and prints for each group of files what they came to and how
// often the two said different things.
#![tactic(auto)]

ghost use Rattle.std.specs.Iterator.{IsFinite};

mod both;
mod tally;

use both::compare;
use generate::{GROUPS, Group};
use std::fs;
use tally::Tally;

// The files of the format's page, and a row that outgrows its limit.
const WORKED: [&[u8]; 4] = [
    b"E\0\0\0\0\0\0\x01\0D\0\0\0\0\0\0\x01\0BR\0\0\0\0\0T\0\0\0N\0\x01",
    b"E\0\0\0\0\0\0\x01\0D\0\0\0\0\0\0\x01\0BR\0\0\0\0\0T\0\0\0",
    b"E\0\0\0\0\0\0\x01\0D\0\0\0\0\0\0\x01\0BR\0\0\0\0\0T\0\0\0N\0\0",
    b"G\0\0\0\0\0\x40\x42\x0f\0\0\0\0\0\0\0\0\0\0\0\0\0\0\0\0BO\x01M\x01\0\x40\x42\x0f\0M\x01\0\x01\0\0\0",
];

// The sample claims.
const SAMPLES: [&str; 6] = [
    "clipped.claim",
    "curve.claim",
    "girder.claim",
    "lanes.claim",
    "torn.claim",
    "turned-bound.claim",
];

// Compares what both checkers say of each file of a group, and prints what they came to.
fn compare_all<I: Iterator + Drop, F: Fn(I::Item) -> anyhow::Result<Vec<u8>>>(
    rt: &HostRuntime,
    name: &str,
    items: I,
    file: F,
) -> anyhow::Result<()>
    requires items { I.can_next items × IsFinite (I.remaining items) }
    requires file { F.IsAlwaysCallable file }
{
    let mut tally = Tally::new();
    for item in items {
        compare(rt.alloc(), file(item)?.as_slice(), &mut tally)?;
    }
    println!(rt; "{name}: {tally}")?;
    Ok(())
}

// How many files of a group are compared.
fn seeds(group: Group) -> u64 {
    match group {
        Group::Long => 8,
        _ => 1000,
    }
}

fn main(rt: HostRuntime) -> anyhow::Result<()> {
    let heap = rt.alloc();
    compare_all(
        &rt,
        "Worked",
        WORKED.into_iter(),
        |file| -> anyhow::Result<Vec<u8>> { Ok(Vec::from_slice(heap, file)?) },
    )?;
    compare_all(
        &rt,
        "Samples",
        SAMPLES.into_iter(),
        |name| -> anyhow::Result<Vec<u8>> { Ok(fs::read(&rt, name)?) },
    )?;
    for group in GROUPS {
        let name = format!(in heap; "{group:?}")?;
        compare_all(
            &rt,
            name.as_str(),
            0..seeds(group),
            |seed| -> anyhow::Result<Vec<u8>> { Ok(generate::file(heap, group, seed)?) },
        )?;
    }
    Ok(())
}
