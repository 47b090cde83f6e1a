// Files whose records come at the wrong stage, and records of unknown kinds.
use crate::changed;
use crate::draft::Draft;
use crate::random::Random;
use crate::record::Term;
use std::alloc::{AllocError, Global};

/// Bytes that are no kind.
const UNKNOWN: [u8; 9] = [0, 10, b'A', b'H', b'V', b'W', b'e', b'r', 255];

// Any record, most of them whole.
fn any_record(draft: &mut Draft) -> Result<(), AllocError> {
    let unknown = draft.random.pick(&UNKNOWN);
    let address = draft.random.byte(3);
    match draft.random.byte(11) {
        0 => draft.records.put(&[b'B']),
        1 => draft.records.terms(b'E', Term::bare(1), Term::bare(2)),
        2 => draft.records.terms(b'D', Term::bare(32), Term::bare(2)),
        3 => draft.records.reading(4, 12),
        4 => draft.records.reading(4, 5000),
        5 => draft.records.put(&[b'O', address]),
        6 => draft.records.put(&[b'P', address]),
        7 => draft.records.put(&[b'Y', 1, 2]),
        8 => draft.records.put(&[b'T', address, 0, 2]),
        9 => draft.records.put(&[b'Q', 1]),
        _ => draft.records.put(&[unknown]),
    }
}

// A certificate and something after its end.
pub fn after_the_close(heap: Global, random: Random) -> Result<Draft, AllocError> {
    let mut draft = changed::either(heap, random)?;
    any_record(&mut draft)?;
    Ok(draft)
}

// One to three of any records.
fn any_records(draft: &mut Draft) -> Result<(), AllocError> {
    for _ in 0..draft.random.byte(3).saturating_add(1) {
        any_record(draft)?;
    }
    Ok(())
}

// A few literals, with or without a begin, and then any records.
pub fn mixed_up(draft: &mut Draft) -> Result<(), AllocError> {
    for _ in 0..draft.random.byte(3) {
        let left = draft.random.term();
        draft.equal(left, left)?;
    }
    if draft.random.coin() {
        draft.begin()?;
    }
    any_records(draft)
}
