//! Claim files made from a seed, to compare two checkers by: certificates, certificates that were changed,
//! fields and tables at their limits, and noise. A file is given by its group and its seed alone.
#![tactic(auto)]

mod certificate;
mod changed;
mod draft;
mod edges;
mod limits;
mod mixed;
mod noise;
mod random;
mod record;
mod rows;
mod stages;
mod terms;

use draft::Draft;
use random::Random;
use record::{Relation, Row};
use std::alloc::{AllocError, Global};

/// What sort of file is made.
#[derive(Clone, Copy, PartialEq, Eq, Debug)]
pub enum Group {
    /// Established over fractions and over whole numbers.
    Certificate,
    /// Established over whole numbers, and refused by 11 over fractions.
    WholeCertificate,
    /// A certificate that ends at any byte.
    Cut,
    /// A certificate of which one to three bytes are changed.
    Flipped,
    /// A certificate of which two records are exchanged, one is left out or one comes twice.
    Swapped,
    /// A certificate that ends after any step, and then steps that show what stands there.
    Probed,
    /// Fields, tables, splits, rows and stages at their limits.
    Edges,
    /// Plausible records, or bytes, at random.
    Noise,
    /// Files of 32,768 bytes, and of one more.
    Long,
}

/// All groups.
pub const GROUPS: [Group; 9] = [
    Group::Certificate,
    Group::WholeCertificate,
    Group::Cut,
    Group::Flipped,
    Group::Swapped,
    Group::Probed,
    Group::Edges,
    Group::Noise,
    Group::Long,
];

/// The file of a group and a seed. A table of functions would be no plainer: the groups are closed.
pub fn file(heap: Global, group: Group, seed: u64) -> Result<Vec<u8>, AllocError> {
    let random = Random::new(seed);
    match group {
        Group::Certificate => certificate::certificate(heap, random, false)?.into_bytes(),
        Group::WholeCertificate => certificate::certificate(heap, random, true)?.into_bytes(),
        Group::Cut => changed::cut(heap, random),
        Group::Flipped => changed::flipped(heap, random),
        Group::Swapped => changed::swapped(heap, random),
        Group::Probed => changed::probed(heap, random),
        Group::Edges => at_limits(heap, random),
        Group::Noise => at_random(heap, random),
        Group::Long => at_full_length(heap, random),
    }
}

// A file of the group of limits. A table of functions could not say how often each comes.
fn at_limits(heap: Global, mut random: Random) -> Result<Vec<u8>, AllocError> {
    let case = random.byte(20);
    if case == 0 {
        return stages::after_the_close(heap, random)?.into_bytes();
    }
    let mut draft = Draft::new(heap, random);
    match case {
        1 => limits::full_by_literals(&mut draft)?,
        2 => limits::full_by_pushes(&mut draft)?,
        3 => limits::full_by_handing(&mut draft)?,
        4 => limits::many_splits(&mut draft)?,
        5 => limits::same_name(&mut draft)?,
        6 => limits::large_coefficient(&mut draft)?,
        7 => limits::large_constant(&mut draft)?,
        8..=9 => limits::near_miss(&mut draft)?,
        10..=11 => stages::mixed_up(&mut draft)?,
        12..=13 => edges::literals(&mut draft)?,
        _ => edges::steps(&mut draft)?,
    }
    draft.into_bytes()
}

// A file of the group of noise.
fn at_random(heap: Global, random: Random) -> Result<Vec<u8>, AllocError> {
    let mut draft = Draft::new(heap, random);
    if draft.random.once_in(4) {
        noise::bytes(&mut draft)?;
    } else {
        noise::plausible(&mut draft)?;
    }
    draft.into_bytes()
}

// A file of 32,768 bytes: a row 0 > 0 (25), the begin (1), 16,363 zero rows (2 each), two additions (7 each)
// and a contradiction (2). At times its last record is another one, and at times it has a byte too many.
fn at_full_length(heap: Global, random: Random) -> Result<Vec<u8>, AllocError> {
    let mut draft = Draft::new(heap, random);
    draft.row(Relation::Above, &Row::multiple(0, 0, 0))?;
    draft.begin()?;
    for _ in 0..16_363 {
        draft.records.zero()?;
    }
    draft.records.add(1, 0, 1)?;
    draft.records.add(1, 0, 2)?;
    match draft.random.byte(4) {
        0 => draft.records.put(&[b'P', 1])?,
        1 => draft.records.put(&[b'T', 0])?,
        2 => draft.records.put(&[b'F', 1, b'F'])?,
        _ => draft.records.falsify()?,
    }
    draft.into_bytes()
}
