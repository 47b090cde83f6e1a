// Certificates that were changed.
use crate::certificate::certificate;
use crate::draft::Draft;
use crate::random::Random;
use crate::record::{Records, Term};
use std::alloc::{AllocError, Global};

// A certificate of either sort.
pub fn either(heap: Global, mut random: Random) -> Result<Draft, AllocError> {
    let whole = random.coin();
    certificate(heap, random, whole)
}

// A certificate that ends at any byte.
pub fn cut(heap: Global, random: Random) -> Result<Vec<u8>, AllocError> {
    let draft = either(heap, random)?;
    let mut random = draft.random;
    let mut bytes = draft.into_bytes()?;
    let size = random.index(bytes.len().saturating_add(1));
    bytes.truncate(size);
    Ok(bytes)
}

// A certificate of which one to three bytes are changed.
pub fn flipped(heap: Global, random: Random) -> Result<Vec<u8>, AllocError> {
    let draft = either(heap, random)?;
    let mut random = draft.random;
    let mut bytes = draft.into_bytes()?;
    for _ in 0..random.byte(3).saturating_add(1) {
        let at = random.index(bytes.len());
        let change = if random.coin() {
            random.byte(4)
        } else {
            random.any_byte()
        };
        if let Some(byte) = bytes.get_mut(at) {
            *byte = byte.wrapping_add(change);
        }
    }
    Ok(bytes)
}

// A certificate of which two records are exchanged, one is left out or one comes twice.
pub fn swapped(heap: Global, random: Random) -> Result<Vec<u8>, AllocError> {
    let draft = either(heap, random)?;
    let mut random = draft.random;
    let mut records = draft.records;
    let one = random.index(records.list.len());
    let two = random.index(records.list.len());
    let low = one.min(two);
    if low < records.list.len() {
        match random.byte(3) {
            0 if one != two => records.list.swap(one, two),
            1 => drop(records.list.remove(low)),
            _ => {
                let again = records.list[low].clone()?;
                records.list.insert(low, again)?;
            }
        }
    }
    records.into_bytes()
}

// Steps whose refusals tell how many facts there are, whether there is a current one, or how many splits are open.
fn probe(records: &mut Records, random: &mut Random) -> Result<(), AllocError> {
    match random.byte(6) {
        0 => {
            records.reflexivity(0, Term::bare(0))?;
            records.put(&[b'T', 0, 255, 0])
        }
        1 => {
            records.zero()?;
            records.add(1, 255, 1)
        }
        2 => records.put(&[b'C', 0, 255, 1, 0]),
        3 => records.add(1, 255, 1),
        4 => records.put(&[b'P', random.byte(3)]),
        _ => {
            for _ in 0..9 {
                records.put(&[b'Y', 4, 5])?;
            }
            Ok(())
        }
    }
}

// A certificate that ends after any step but the last, and then a probe.
pub fn probed(heap: Global, random: Random) -> Result<Vec<u8>, AllocError> {
    let draft = either(heap, random)?;
    let mut random = draft.random;
    let begun = draft.begun;
    let mut records = draft.records;
    let steps = random.index(records.list.len().saturating_sub(begun));
    records.list.truncate(begun.saturating_add(steps));
    probe(&mut records, &mut random)?;
    records.into_bytes()
}
