// Terms, rows, and the facts over them.
use std::array;

/// The number of names, n0 to n31.
pub const NAMES: usize = 32;

/// The largest size of a row's numbers.
pub const LARGEST: u128 = 1_000_000_000_000;

/// A bare name, or a symbol applied to one name or to two. Symbols and names are numbers.
#[derive(Clone, Copy, PartialEq, Eq)]
pub enum Term {
    Bare(u8),
    One(u8, u8),
    Two(u8, u8, u8),
}

/// Two terms that are equal, or that are different: `equal` says which, and an enum of the two would
/// say no more.
#[derive(Clone, Copy)]
pub struct Equation {
    pub left: Term,
    pub right: Term,
    pub equal: bool,
}

impl Equation {
    // left = right
    pub fn equal(left: Term, right: Term) -> Equation {
        Equation {
            left,
            right,
            equal: true,
        }
    }

    // The same fact with its sides exchanged, if asked for.
    pub fn turned(self, turned: bool) -> Equation {
        if turned {
            Equation {
                left: self.right,
                right: self.left,
                ..self
            }
        } else {
            self
        }
    }
}

/// Two names, a first and a second.
#[derive(Clone, Copy)]
pub struct Names {
    pub first: u8,
    pub second: u8,
}

impl Names {
    // The second name first.
    pub fn exchanged(self) -> Names {
        Names {
            first: self.second,
            second: self.first,
        }
    }
}

/// How a row compares with 0.
#[derive(Clone, Copy, PartialEq, Eq)]
pub enum Relation {
    AtLeast,
    Above,
    Zero,
}

/// A constant and a coefficient for each name.
#[derive(Clone, Copy)]
pub struct Row {
    pub constant: i128,
    pub coefficients: [i128; NAMES],
}

impl Row {
    // A constant with no names.
    pub fn constant(constant: i128) -> Row {
        Row {
            constant,
            coefficients: [0; NAMES],
        }
    }

    // Adds to the coefficient of a name.
    pub fn add(&mut self, name: u8, more: i128) {
        if let Some(coefficient) = self.coefficients.get_mut(usize::from(name)) {
            *coefficient = coefficient.saturating_add(more);
        }
    }

    // The coefficient of a name.
    pub fn coefficient(&self, name: u8) -> i128 {
        self.coefficients
            .get(usize::from(name))
            .copied()
            .unwrap_or(0)
    }

    // The first name less the second.
    pub fn difference(names: Names) -> Row {
        let mut row = Row::constant(0);
        row.add(names.first, 1);
        row.add(names.second, -1);
        row
    }

    // This row and c times another.
    pub fn plus(&self, c: i128, other: &Row) -> Row {
        Row {
            constant: plus_times(self.constant, c, other.constant),
            coefficients: array::from_fn(|at| {
                plus_times(self.coefficients[at], c, other.coefficients[at])
            }),
        }
    }

    // Whether no number is larger than a row's may be.
    pub fn fits(&self) -> bool {
        self.constant.unsigned_abs() <= LARGEST
            && self
                .coefficients
                .iter()
                .all(|c| c.unsigned_abs() <= LARGEST)
    }

    // Whether a coefficient is not 0.
    pub fn has_names(&self) -> bool {
        self.coefficients.iter().any(|c| *c != 0)
    }

    // The greatest common divisor of the coefficients, 0 where there are no names.
    pub fn divisor(&self) -> i128 {
        let divisor = self
            .coefficients
            .iter()
            .fold(0, |divisor, c| gcd(divisor, c.unsigned_abs()));
        i128::try_from(divisor).unwrap_or(0)
    }

    // Every number divided by a positive number, and rounded down.
    pub fn divided(&self, divisor: i128) -> Row {
        Row {
            constant: rounded_down(self.constant, divisor),
            coefficients: self.coefficients.map(|c| rounded_down(c, divisor)),
        }
    }
}

// A number and c times another.
fn plus_times(number: i128, c: i128, other: i128) -> i128 {
    number.saturating_add(c.saturating_mul(other))
}

// The greatest common divisor of two numbers.
fn gcd(a: u128, b: u128) -> u128 {
    if b == 0 { a } else { gcd(b, a % b) }
}

// The largest whole number not above a quotient by a positive number.
fn rounded_down(number: i128, divisor: i128) -> i128 {
    if divisor > 0 {
        number.div_euclid(divisor)
    } else {
        number
    }
}

/// A row that compares so with 0.
#[derive(Clone, Copy)]
pub struct RowFact {
    pub row: Row,
    pub relation: Relation,
}

impl RowFact {
    // Whether this fails, of a row that has no names.
    pub fn fails(&self) -> bool {
        match self.relation {
            Relation::AtLeast => self.row.constant < 0,
            Relation::Above => self.row.constant <= 0,
            Relation::Zero => self.row.constant != 0,
        }
    }
}

/// A fact of one theory or the other.
#[derive(Clone, Copy)]
pub enum Fact {
    OfTerms(Equation),
    OfRow(RowFact),
}
