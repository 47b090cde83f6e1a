// Files at the limits of a claim: full tables, open splits, large rows.
use crate::draft::{Address, Draft};
use crate::record::{Names, Relation, Row, Term};
use crate::rows::{Combination, Dividing};
use std::alloc::AllocError;

// So many literals at an address.
fn fill(draft: &mut Draft, address: Address, count: u8) -> Result<(), AllocError> {
    for _ in 0..count {
        let name = draft.random.name();
        match address {
            Address::Terms => draft.equal(Term::bare(name), Term::bare(name))?,
            Address::Rows => draft.row(Relation::AtLeast, &Row::multiple(1, name, 0))?,
        };
    }
    Ok(())
}

// One of the two addresses.
fn one_address(draft: &mut Draft) -> Address {
    if draft.random.coin() {
        Address::Rows
    } else {
        Address::Terms
    }
}

// About as many facts as an address holds.
fn nearly_full(draft: &mut Draft) -> u8 {
    draft.random.byte(4).saturating_add(62)
}

// Literals or readings until a table is full, or has one place left.
pub fn full_by_literals(draft: &mut Draft) -> Result<(), AllocError> {
    let count = nearly_full(draft);
    let name = draft.random.name();
    match draft.random.byte(3) {
        0 => fill(draft, Address::Terms, count)?,
        1 => fill(draft, Address::Rows, count)?,
        _ => {
            fill(draft, Address::Rows, count)?;
            draft.reading(name, 12)?;
        }
    }
    draft.begin()?;
    draft.records.zero()
}

// Pushes until a table is full.
pub fn full_by_pushes(draft: &mut Draft) -> Result<(), AllocError> {
    let count = nearly_full(draft);
    let address = one_address(draft);
    fill(draft, address, count.min(64))?;
    draft.begin()?;
    draft.records.reflexivity(0, Term::bare(3))?;
    draft.records.zero()?;
    for _ in 0..3 {
        draft.records.put(&[b'P', address as u8])?;
    }
    Ok(())
}

// Equalities handed on until a table is full.
pub fn full_by_handing(draft: &mut Draft) -> Result<(), AllocError> {
    let count = nearly_full(draft).min(64).saturating_sub(2);
    let names = draft.random.names();
    draft.row(Relation::AtLeast, &Row::difference(1, names, 0))?;
    draft.row(Relation::AtLeast, &Row::difference(1, names.exchanged(), 0))?;
    let address = one_address(draft);
    fill(draft, address, count)?;
    draft.begin()?;
    draft.records.reflexivity(0, Term::bare(names.0))?;
    draft.records.zero()?;
    draft.records.add(1, 0, 1)?;
    for _ in 0..5 {
        if draft.random.coin() {
            draft.records.propagate()?;
        } else {
            draft.records.antisymmetry(1, names)?;
        }
    }
    Ok(())
}

// Splits until a table is full, or until too many are open.
pub fn many_splits(draft: &mut Draft) -> Result<(), AllocError> {
    let count = draft.random.byte(4).saturating_add(53);
    match draft.random.byte(3) {
        0 => fill(draft, Address::Rows, count)?,
        1 => fill(draft, Address::Terms, count)?,
        _ => (),
    }
    draft.begin()?;
    for _ in 0..draft.random.byte(3).saturating_add(7) {
        let names = draft.random.any_names();
        draft.split(names)?;
    }
    Ok(())
}

// A split on one name, whose first branch and third are refuted by what is told.
pub fn same_name(draft: &mut Draft) -> Result<(), AllocError> {
    let n = draft.random.name();
    draft.begin()?;
    let told = draft.split(Names(n, n))?;
    draft.records.zero()?;
    draft.records.add(1, told.row, 1)?;
    draft.records.falsify()?;
    draft.records.reflexivity(0, Term::bare(n))?;
    draft.records.clash(told.term)
}

// A coefficient at the largest size of a row, then past it.
pub fn large_coefficient(draft: &mut Draft) -> Result<(), AllocError> {
    let n = draft.random.name();
    let size = draft
        .random
        .pick(&[1_000_000, 999_999, 1_000_001, -1_000_000]);
    let up = draft.row(Relation::AtLeast, &Row::multiple(size, n, 0))?;
    let down = draft.row(
        Relation::AtLeast,
        &Row::multiple(size.saturating_neg(), n, 0),
    )?;
    draft.begin()?;
    draft.records.zero()?;
    draft.records.add(1, up, 1_000_000)?;
    let largest = draft.push(Address::Rows)?;
    if draft.random.coin() {
        draft.records.add(1, up, 1)?;
    }
    draft.records.zero()?;
    draft.records.add(1, down, 1_000_000)?;
    draft.records.add(1, largest, 2)?;
    draft.records.add(1, largest, 1)
}

// A constant at the largest size of a row, then past it, by adding and by making a row stronger.
pub fn large_constant(draft: &mut Draft) -> Result<(), AllocError> {
    let n = draft.random.name();
    let size = draft
        .random
        .pick(&[-1_000_000, -999_999, 1_000_000, -1_000_001]);
    let row = draft.row(Relation::Above, &Row::multiple(1, n, size))?;
    let one = draft.row(Relation::Zero, &Row::multiple(0, n, 1))?;
    draft.begin()?;
    draft.records.zero()?;
    draft.records.add(1, row, 1_000_000)?;
    match draft.random.byte(4) {
        0 => draft.records.add(1, one, 1)?,
        1 => draft.records.add(1, one, -1)?,
        2 => draft.records.cut()?,
        _ => (),
    }
    draft.records.strengthen()?;
    draft.records.cut()?;
    draft.records.falsify()
}

// Rows that add up to a contradiction, or to just none.
pub fn near_miss(draft: &mut Draft) -> Result<(), AllocError> {
    let miss = i32::from(draft.random.byte(2));
    if draft.random.coin() {
        let goal = Combination::state(draft, miss)?;
        draft.begin()?;
        goal.refute(draft)
    } else {
        let goal = Dividing::state(draft, miss)?;
        draft.begin()?;
        goal.refute(draft)
    }
}
