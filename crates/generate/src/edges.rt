// Files with fields at the edges of their ranges.
use crate::draft::Draft;
use crate::random::Random;
use crate::record::{Names, Relation, Row, Term};
use std::alloc::AllocError;

/// Values at the edges of each range.
const TAGS: [u8; 5] = [0, 1, 2, 3, 255];

const LETTERS: [u8; 5] = [0, 1, 15, 16, 255];

const NAMES: [u8; 6] = [0, 1, 31, 32, 33, 255];

const POSITIONS: [u8; 6] = [0, 1, 2, 3, 4, 255];

const TURNS: [u8; 4] = [0, 1, 2, 255];

const ADDRESSES: [u8; 6] = [0, 1, 2, 3, 4, 255];

const COUNTS: [u16; 7] = [0, 1, 4094, 4095, 4096, 4097, 65535];

const NUMBERS: [i32; 10] = [
    0,
    1,
    -1,
    999_999_999,
    1_000_000_000,
    1_000_000_001,
    -1_000_000_000,
    -1_000_000_001,
    i32::MAX,
    i32::MIN,
];

const FACTORS: [i32; 11] = [
    0,
    1,
    -1,
    2,
    999_999,
    1_000_000,
    1_000_001,
    -1_000_000,
    -1_000_001,
    i32::MAX,
    i32::MIN,
];

// A term with one field at an edge.
fn edge_term(random: &mut Random) -> Term {
    let mut term = random.term();
    match random.byte(4) {
        0 => term.tag = random.pick(&TAGS),
        1 => term.letter = random.pick(&LETTERS),
        2 => term.first = random.pick(&NAMES),
        _ => term.second = random.pick(&NAMES),
    }
    term
}

// A row with one field, or all numbers, at an edge.
fn edge_row(random: &mut Random) -> Row {
    let names = random.any_names();
    let mut row = Row::difference(random.small(9), names, 3);
    let at = random.index(4);
    match random.byte(4) {
        0 => row.constant = random.pick(&NUMBERS),
        1 => row.pairs[at].name = random.pick(&NAMES),
        2 => row.pairs[at].coefficient = random.pick(&NUMBERS),
        _ => row = Row::difference(1_000_000_000, names, -1_000_000_000),
    }
    row
}

// Literals with a field at an edge, and then perhaps the begin.
pub fn literals(draft: &mut Draft) -> Result<(), AllocError> {
    for _ in 0..draft.random.byte(4).saturating_add(1) {
        let good = draft.random.term();
        let edge = edge_term(&mut draft.random);
        let row = edge_row(&mut draft.random);
        let relation = draft.random.relation();
        let name = draft.random.pick(&NAMES);
        let count = draft.random.pick(&COUNTS);
        match draft.random.byte(5) {
            0 => draft.records.terms(b'E', edge, good)?,
            1 => draft.records.terms(b'D', good, edge)?,
            2 => draft.records.reading(name, 7)?,
            3 => draft.records.reading(3, count)?,
            _ => draft.records.row(relation, &row)?,
        }
    }
    if draft.random.coin() {
        draft.begin()
    } else {
        Ok(())
    }
}

// A few facts of every relation at both addresses, the begin, and at times a current fact at each.
fn prepare(draft: &mut Draft) -> Result<(), AllocError> {
    let term = Term::one(4, 2);
    draft.equal(Term::bare(1), Term::bare(2))?;
    draft.different(Term::bare(1), Term::bare(2))?;
    draft.equal(Term::one(4, 1), term)?;
    draft.row(Relation::AtLeast, &Row::difference(2, Names(1, 2), 0))?;
    draft.row(Relation::Above, &Row::difference(3, Names(2, 1), 0))?;
    draft.row(Relation::Zero, &Row::difference(1, Names(1, 3), 0))?;
    draft.row(Relation::AtLeast, &Row::difference(5, Names(2, 1), 0))?;
    draft.begin()?;
    if draft.random.once_in(8) {
        return Ok(());
    }
    let start = if draft.random.coin() {
        Term::bare(1)
    } else {
        Term::two(9, 1, 2)
    };
    draft.records.reflexivity(0, start)?;
    draft.records.zero()?;
    if draft.random.coin() {
        let fact = draft.random.byte(4);
        draft.records.add(1, fact, 1)?;
    }
    Ok(())
}

// A fact's number, one below, at or above the number of facts, or any.
fn edge_fact(draft: &mut Draft, count: u8) -> u8 {
    match draft.random.byte(6) {
        0 => count.saturating_sub(1),
        1 => count,
        2 => count.saturating_add(1),
        3 => 255,
        _ => draft.random.byte(count),
    }
}

// A step of equality with one field at an edge.
fn edge_terms_step(draft: &mut Draft, address: u8) -> Result<(), AllocError> {
    let count = draft.facts.terms;
    let fact = edge_fact(draft, count);
    let turned = draft.random.pick(&TURNS);
    let good_turn = draft.random.byte(2);
    let position = draft.random.pick(&POSITIONS);
    let good_position = draft.random.byte(2).saturating_add(1);
    let term = edge_term(&mut draft.random);
    match draft.random.byte(8) {
        0 => draft.records.put(&[b'T', address, fact, good_turn]),
        1 => draft.records.put(&[b'T', address, 0, turned]),
        2 => draft
            .records
            .put(&[b'C', address, fact, good_position, good_turn]),
        3 => draft.records.put(&[b'C', address, 0, position, good_turn]),
        4 => draft
            .records
            .put(&[b'C', address, 0, good_position, turned]),
        5 => draft.records.put(&[b'N', address, fact]),
        6 => draft.records.put(&[b'X', address]),
        _ => draft.records.reflexivity(address, term),
    }
}

// A step of rows, or a push, with one field at an edge.
fn edge_rows_step(draft: &mut Draft, address: u8) -> Result<(), AllocError> {
    let count = draft.facts.rows;
    let fact = edge_fact(draft, count);
    let good_fact = draft.random.byte(count);
    let factor = draft.random.pick(&FACTORS);
    let name = draft.random.pick(&NAMES);
    match draft.random.byte(10) {
        0 => draft.records.add(address, fact, 1),
        1 => draft.records.add(address, good_fact, factor),
        2 => draft.records.put(&[b'Q', address, fact, 1, 2]),
        3 => draft.records.put(&[b'Q', address, 3, name, 2]),
        4 => draft.records.put(&[b'Q', address, 3, 1, name]),
        5 => draft.records.put(&[b'F', address]),
        6 => draft.records.put(&[b'I', address]),
        7 => draft.records.put(&[b'U', address]),
        8 => draft.records.put(&[b'P', address]),
        _ => draft.records.put(&[b'O', address]),
    }
}

// Steps with a field at an edge, some of them at addresses where nothing stands.
pub fn steps(draft: &mut Draft) -> Result<(), AllocError> {
    prepare(draft)?;
    for _ in 0..4 {
        let strange = draft.random.once_in(4);
        let any = draft.random.pick(&ADDRESSES);
        let name = draft.random.pick(&NAMES);
        match draft.random.byte(9) {
            0 => draft.records.put(&[b'Y', name, 3])?,
            1 => draft.records.put(&[b'Y', 3, name])?,
            2..=4 => edge_terms_step(draft, if strange { any } else { 0 })?,
            _ => edge_rows_step(draft, if strange { any } else { 1 })?,
        }
    }
    Ok(())
}
