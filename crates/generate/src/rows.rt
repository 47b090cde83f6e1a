// Goals that rows refute.
use crate::draft::{Address, Draft};
use crate::record::{Pair, Relation, Row};
use std::alloc::AllocError;
use std::array;

/// Three rows, of which a combination has no names and a false constant.
#[derive(Clone, Copy)]
pub struct Combination {
    row: u8,
    first: i32,
    second: i32,
}

// A factor that may stand before a relation: positive, but for equations.
fn factor(draft: &mut Draft, relation: Relation) -> i32 {
    let size = draft.random.small(100).saturating_add(1);
    let negative = relation == Relation::Zero && draft.random.coin();
    if negative {
        size.saturating_neg()
    } else {
        size
    }
}

// A row of these names with coefficients below a thousand.
fn random_row(draft: &mut Draft, names: [u8; 4]) -> Row {
    let constant = draft.random.signed(1000);
    let pairs = names.map(|name| Pair {
        name,
        coefficient: draft.random.signed(1000),
    });
    Row { constant, pairs }
}

// −(c·x + d·y)
fn against(c: i32, x: i32, d: i32, y: i32) -> i32 {
    c.saturating_mul(x)
        .saturating_add(d.saturating_mul(y))
        .saturating_neg()
}

// The row that c times one and d times another are to be refuted by, less a gap.
fn opposite(c: i32, x: &Row, d: i32, y: &Row, gap: i32) -> Row {
    Row {
        constant: against(c, x.constant, d, y.constant).saturating_sub(gap),
        pairs: array::from_fn(|at| Pair {
            name: x.pairs[at].name,
            coefficient: against(c, x.pairs[at].coefficient, d, y.pairs[at].coefficient),
        }),
    }
}

impl Combination {
    // States the rows, of which the third makes the combination 0 > 0 or −k ≥ 0, and `miss` more.
    pub fn state(draft: &mut Draft, miss: i32) -> Result<Combination, AllocError> {
        let names = array::from_fn(|_| draft.random.name());
        let relations: [Relation; 3] = array::from_fn(|_| draft.random.relation());
        let [x_relation, y_relation, z_relation] = relations;
        let strict = relations.contains(&Relation::Above);
        let first = factor(draft, x_relation);
        let second = factor(draft, y_relation);
        let x = random_row(draft, names);
        let y = random_row(draft, names);
        let more = if draft.random.coin() {
            0
        } else {
            draft.random.small(1000)
        };
        let gap = if strict { 0 } else { more.saturating_add(1) };
        let z = opposite(first, &x, second, &y, gap.saturating_sub(miss));
        let row = draft.row(x_relation, &x)?;
        draft.row(y_relation, &y)?;
        draft.row(z_relation, &z)?;
        Ok(Combination { row, first, second })
    }

    // Adds the three up, with the first part pushed at times.
    pub fn refute(self, draft: &mut Draft) -> Result<(), AllocError> {
        let second = self.row.saturating_add(1);
        let third = self.row.saturating_add(2);
        draft.records.zero()?;
        draft.records.add(1, self.row, self.first)?;
        if draft.random.once_in(3) {
            let part = draft.push(Address::Rows)?;
            draft.records.zero()?;
            draft.records.add(1, part, 1)?;
        }
        draft.records.add(1, second, self.second)?;
        draft.records.add(1, third, 1)?;
        draft.records.falsify()
    }
}

/// g·(n − m) ≥ r and g·(n − m) ≤ s with 0 < r ≤ s < g, which no whole numbers meet.
#[derive(Clone, Copy)]
pub struct Rounding {
    divisor: i32,
    strict: bool,
    low: u8,
    high: u8,
}

impl Rounding {
    // States the two rows, the first with > at times.
    pub fn state(draft: &mut Draft) -> Result<Rounding, AllocError> {
        let names = draft.random.names();
        let r = draft.random.small(1000).saturating_add(1);
        let s = draft.random.small(1000).saturating_add(r);
        let divisor = draft.random.small(1000).saturating_add(s).saturating_add(1);
        let strict = draft.random.coin();
        let below = r.saturating_neg();
        let low = if strict {
            let row = Row::difference(divisor, names, below.saturating_add(1));
            draft.row(Relation::Above, &row)?
        } else {
            draft.row(Relation::AtLeast, &Row::difference(divisor, names, below))?
        };
        let high = draft.row(
            Relation::AtLeast,
            &Row::difference(divisor, names.exchanged(), s),
        )?;
        Ok(Rounding {
            divisor,
            strict,
            low,
            high,
        })
    }

    // Cuts the first row to n − m − 1 ≥ 0 and pushes it, and adds it to the other, cut or not.
    pub fn refute(self, draft: &mut Draft) -> Result<(), AllocError> {
        draft.records.zero()?;
        draft.records.add(1, self.low, 1)?;
        if self.strict {
            draft.records.strengthen()?;
        }
        draft.records.cut()?;
        let cut = draft.push(Address::Rows)?;
        draft.records.zero()?;
        draft.records.add(1, self.high, 1)?;
        if draft.random.coin() {
            draft.records.cut()?;
            draft.records.add(1, cut, 1)?;
        } else {
            draft.records.add(1, cut, self.divisor)?;
        }
        draft.records.falsify()
    }
}

/// A row of multiples of g with a constant c, and the opposite of what it is cut to, less 1.
#[derive(Clone, Copy)]
pub struct Dividing {
    row: u8,
    other: u8,
    factor: i32,
}

// A row of four different names with these coefficients, each times a number.
fn spread(base: u8, constant: i32, times: i32, coefficients: [i32; 4]) -> Row {
    Row {
        constant,
        pairs: array::from_fn(|at| Pair {
            // at most 3
            name: base.wrapping_add(at as u8) % 32,
            coefficient: times.saturating_mul(coefficients[at]),
        }),
    }
}

impl Dividing {
    // States the two rows, the second with `miss` more. A coefficient of 1 or −1 makes g the divisor.
    pub fn state(draft: &mut Draft, miss: i32) -> Result<Dividing, AllocError> {
        let base = draft.random.name();
        let divisor = draft.random.small(1000).saturating_add(1);
        let constant = draft.random.signed(30_000);
        let unit = if draft.random.coin() { 1 } else { -1 };
        let coefficients = [
            draft.random.signed(50),
            unit,
            draft.random.signed(50),
            draft.random.signed(50),
        ];
        let quotient = constant.checked_div_euclid(divisor).unwrap_or(0);
        let against = quotient
            .saturating_neg()
            .saturating_sub(1)
            .saturating_add(miss);
        let row = draft.row(
            Relation::AtLeast,
            &spread(base, constant, divisor, coefficients),
        )?;
        let other = draft.row(Relation::AtLeast, &spread(base, against, -1, coefficients))?;
        let factor = draft.random.small(1000).saturating_add(1);
        Ok(Dividing { row, other, factor })
    }

    // Cuts a multiple of the first row, and adds the other.
    pub fn refute(self, draft: &mut Draft) -> Result<(), AllocError> {
        draft.records.zero()?;
        draft.records.add(1, self.row, self.factor)?;
        draft.records.cut()?;
        draft.records.add(1, self.other, 1)?;
        draft.records.falsify()
    }
}

/// A reading of n that is above one of m, and n at most m and a little more.
#[derive(Clone, Copy)]
pub struct Counts {
    low: u8,
    high: u8,
    row: u8,
    factor: i32,
}

// A count from 1 on, at times the clipped one.
fn positive_count(draft: &mut Draft) -> u16 {
    if draft.random.once_in(4) {
        4095
    } else {
        draft.random.count(4095).saturating_add(1)
    }
}

impl Counts {
    // States two readings and a row.
    pub fn state(draft: &mut Draft) -> Result<Counts, AllocError> {
        let names = draft.random.any_names();
        let count = positive_count(draft);
        let below = draft.random.count(count);
        let slack = draft.random.small(count.saturating_sub(below));
        let low = draft.reading(names.0, count)?;
        let high = draft.reading(names.1, below)?.saturating_add(1);
        let row = draft.row(
            Relation::AtLeast,
            &Row::difference(1, names.exchanged(), slack),
        )?;
        let factor = draft.random.small(10_000).saturating_add(1);
        Ok(Counts {
            low,
            high,
            row,
            factor,
        })
    }

    // Adds the bounds and the row up.
    pub fn refute(self, draft: &mut Draft) -> Result<(), AllocError> {
        draft.records.zero()?;
        draft.records.add(1, self.high, self.factor)?;
        draft.records.add(1, self.low, self.factor)?;
        draft.records.add(1, self.row, self.factor)?;
        draft.records.falsify()
    }
}
