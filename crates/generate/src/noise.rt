// Records at random.
use crate::draft::Draft;
use crate::record::{Names, Position, Relation, Row, Term};
use std::alloc::AllocError;

/// All kinds of records.
const KINDS: [u8; 20] = *b"EDGSZKBRTCNXOMQFIUPY";

// Two of three names, so that records meet.
fn few_names(draft: &mut Draft) -> Names {
    let first = draft.random.byte(3);
    Names(first, draft.random.byte(3))
}

// A term over few names and one symbol of each sort.
fn few_terms(draft: &mut Draft) -> Term {
    let Names(first, second) = few_names(draft);
    match draft.random.byte(5) {
        0 => Term::one(5, first),
        1 => Term::two(5, first, second),
        _ => Term::bare(first),
    }
}

// A literal over few names.
fn literal(draft: &mut Draft) -> Result<(), AllocError> {
    let left = few_terms(draft);
    let right = few_terms(draft);
    let names = few_names(draft);
    let k = draft.random.signed(4);
    let constant = draft.random.signed(4);
    let row = Row::difference(k, names, constant);
    match draft.random.byte(6) {
        0 => draft.equal(left, right)?,
        1 => draft.different(left, right)?,
        2 => draft.row(Relation::AtLeast, &Row::difference(k, names, 0))?,
        3 => draft.row(Relation::Above, &row)?,
        4 => draft.row(Relation::Zero, &row)?,
        _ => draft.reading(names.0, 3)?,
    };
    Ok(())
}

// A step of equality with plausible fields.
fn terms_step(draft: &mut Draft) -> Result<(), AllocError> {
    let term = few_terms(draft);
    let fact = draft.random.byte(draft.facts.terms);
    let turned = draft.random.byte(2) == 1;
    let position = match draft.random.byte(2) {
        0 => Position::First,
        _ => Position::Second,
    };
    match draft.random.byte(9) {
        0..=2 => draft.records.reflexivity(0, term),
        3 => draft.records.transitivity(fact, turned),
        4 => draft.records.congruence(fact, position, turned),
        5 => draft.records.clash(fact),
        6 => draft.records.propagate(),
        _ => draft.records.put(&[b'P', 0]),
    }
}

// A split, and current facts in its first branch.
fn split(draft: &mut Draft, names: Names) -> Result<(), AllocError> {
    draft.split(names)?;
    draft.records.zero()?;
    draft.records.reflexivity(0, Term::bare(names.0))
}

// A step of rows with plausible fields.
fn rows_step(draft: &mut Draft) -> Result<(), AllocError> {
    let fact = draft.random.byte(draft.facts.rows);
    let factor = draft.random.small(6);
    let names = few_names(draft);
    match draft.random.byte(12) {
        0..=2 => draft.records.zero(),
        3..=5 => draft.records.add(1, fact, factor),
        6 => draft.records.antisymmetry(fact, names),
        7 => draft.records.falsify(),
        8 => draft.records.strengthen(),
        9 => draft.records.cut(),
        10 => split(draft, names),
        _ => draft.records.put(&[b'P', 1]),
    }
}

// Steps with plausible fields.
fn steps(draft: &mut Draft) -> Result<(), AllocError> {
    for _ in 0..draft.random.byte(30) {
        if draft.random.coin() {
            terms_step(draft)?;
        } else {
            rows_step(draft)?;
        }
    }
    Ok(())
}

// Literals, the begin, a current fact at each address, and steps.
pub fn plausible(draft: &mut Draft) -> Result<(), AllocError> {
    for _ in 0..draft.random.byte(8).saturating_add(3) {
        literal(draft)?;
    }
    draft.begin()?;
    draft.records.zero()?;
    draft.records.reflexivity(0, Term::bare(0))?;
    steps(draft)
}

// Any bytes, at times after a kind.
pub fn bytes(draft: &mut Draft) -> Result<(), AllocError> {
    for _ in 0..draft.random.byte(60) {
        let any = draft.random.any_byte();
        let kind = draft.random.pick(&KINDS);
        let low = draft.random.byte(3);
        match draft.random.byte(4) {
            0 => draft.records.put(&[any])?,
            1 => draft.records.put(&[kind])?,
            _ => draft.records.put(&[low])?,
        }
    }
    Ok(())
}
