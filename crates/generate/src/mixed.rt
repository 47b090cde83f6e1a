// Goals that equality and rows refute together.
use crate::draft::Draft;
use crate::record::{Names, Position, Relation, Row, Term};
use std::alloc::AllocError;

/// k·n − k·m ≥ 0 and j·m − j·n ≥ 0, with n and m, or a symbol's answers to them, that differ.
#[derive(Clone, Copy)]
pub struct Meeting {
    names: Names,
    forth: u8,
    back: u8,
    before: Term,
    apart: u8,
    factor: i32,
}

impl Meeting {
    // States two rows and a difference.
    pub fn state(draft: &mut Draft) -> Result<Meeting, AllocError> {
        let names = draft.random.names();
        let k = draft.random.small(1000).saturating_add(1);
        let j = draft.random.small(1000).saturating_add(1);
        let factor = draft.random.small(1000).saturating_add(1);
        let letter = draft.random.byte(16);
        let bare = draft.random.coin();
        let applied = |name| {
            if bare {
                Term::bare(name)
            } else {
                Term::one(letter, name)
            }
        };
        let before = applied(names.0);
        let back = draft.row(Relation::AtLeast, &Row::difference(j, names.exchanged(), 0))?;
        let forth = draft.row(Relation::AtLeast, &Row::difference(k, names, 0))?;
        let apart = draft.different(before, applied(names.1))?;
        Ok(Meeting {
            names,
            forth,
            back,
            before,
            apart,
            factor,
        })
    }

    // Rows hand n = m on, and equality goes on from there.
    pub fn refute(self, draft: &mut Draft) -> Result<(), AllocError> {
        draft.records.zero()?;
        draft.records.add(1, self.forth, self.factor)?;
        draft.records.antisymmetry(self.back, self.names)?;
        let equal = draft.told().term;
        draft.records.reflexivity(0, self.before)?;
        if self.before.tag == 0 {
            draft.records.transitivity(equal, false)?;
        } else {
            draft.records.congruence(equal, Position::First, false)?;
        }
        draft.records.clash(self.apart)
    }
}

/// n = m, and k·n − k·m > 0, or a little more than 0 at least.
#[derive(Clone, Copy)]
pub struct Handing {
    n: u8,
    fact: u8,
    turned: bool,
    row: u8,
    k: i32,
}

impl Handing {
    // States an equality and a row.
    pub fn state(draft: &mut Draft) -> Result<Handing, AllocError> {
        let names = draft.random.names();
        let Names(n, m) = names;
        let k = draft.random.signed(1000);
        let turned = draft.random.coin();
        let fact = draft.equal_turned(turned, Term::bare(n), Term::bare(m))?;
        let row = if draft.random.coin() {
            draft.row(Relation::Above, &Row::difference(k, names, 0))?
        } else {
            draft.row(Relation::AtLeast, &Row::difference(k, names, -1))?
        };
        Ok(Handing {
            n,
            fact,
            turned,
            row,
            k,
        })
    }

    // Equality hands n = m on, and rows go on from there.
    pub fn refute(self, draft: &mut Draft) -> Result<(), AllocError> {
        draft.records.reflexivity(0, Term::bare(self.n))?;
        draft.records.transitivity(self.fact, self.turned)?;
        draft.records.propagate()?;
        let zero = draft.told().row;
        draft.records.zero()?;
        draft.records.add(1, self.row, 1)?;
        draft.records.add(1, zero, self.k.saturating_neg())?;
        draft.records.falsify()
    }
}

/// n ≠ m and n − m ≥ 0, with m − n ≥ 0, or over whole numbers m − n + 1 > 0.
#[derive(Clone, Copy)]
pub struct Ordering {
    names: Names,
    k: i32,
    apart: u8,
    row: u8,
    other: u8,
    whole: bool,
}

impl Ordering {
    // States a difference and two rows.
    pub fn state(draft: &mut Draft, whole: bool) -> Result<Ordering, AllocError> {
        let names = draft.random.names();
        let k = draft.random.small(1000).saturating_add(1);
        let apart = draft.different(Term::bare(names.0), Term::bare(names.1))?;
        let row = draft.row(Relation::AtLeast, &Row::difference(k, names, 0))?;
        let back = names.exchanged();
        let other = if whole {
            draft.row(Relation::Above, &Row::difference(1, back, 1))?
        } else {
            draft.row(Relation::AtLeast, &Row::difference(k, back, 0))?
        };
        Ok(Ordering {
            names,
            k,
            apart,
            row,
            other,
            whole,
        })
    }

    // Splits on n and m, and refutes each of the three branches.
    pub fn refute(self, draft: &mut Draft) -> Result<(), AllocError> {
        let told = draft.split(self.names)?;
        draft.records.zero()?;
        draft.records.add(1, told.row, self.k)?;
        draft.records.add(1, self.row, 1)?;
        draft.records.falsify()?;
        draft.records.reflexivity(0, Term::bare(self.names.0))?;
        draft.records.transitivity(told.term, false)?;
        draft.records.clash(self.apart)?;
        draft.records.zero()?;
        if self.whole {
            draft.records.add(1, told.row, 1)?;
            draft.records.strengthen()?;
        } else {
            draft.records.add(1, told.row, self.k)?;
        }
        draft.records.add(1, self.other, 1)?;
        draft.records.falsify()
    }
}
