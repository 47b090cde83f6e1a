ghost use Rattle.std.specs.Prelude.{◌≡◌, length, Some};
ghost use Rattle.reading.specs.Bounds.{bound_literal, one_name, bound_text, bounds_text, bounds_list};

use facts::{Literal, Name, Relation, SentPair, SentRow};
use std::fmt;

// A bound on the value of one name.
#[derive(Clone, Copy)]
pub enum Bound {
    // n - c >= 0
    AtLeast(Name, u16),
    // c - n > 0
    LessThan(Name, u16),
}

// What one reading states: its literals, in order. At the highest count there is no upper one.
#[derive(Clone, Copy)]
pub struct Bounds {
    pub lower: Bound,
    pub upper: Option<Bound>,
}

impl Bound {
    // The bound as a literal that can be sent.
    pub fn literal(self) -> Literal
        ensures { result ≡ bound_literal self }
    {
        match self {
            Bound::AtLeast(name, limit) => one_name(
                Relation::NonNegative,
                -i32::from(limit),
                name.index(),
                1,
            ),
            Bound::LessThan(name, limit) => one_name(
                Relation::Positive,
                i32::from(limit),
                name.index(),
                -1,
            ),
        }
    }
}

// A row literal with one name.
fn one_name(how: Relation, constant: i32, name: u8, coefficient: i32) -> Literal
    ensures { result ≡ one_name how constant name coefficient }
{
    let none = SentPair {
        name: 0,
        coefficient: 0,
    };
    let row = SentRow {
        constant,
        pairs: [SentPair { name, coefficient }, none, none, none],
    };
    Literal::Linear(how, row)
}

impl Bounds {
    // How many literals there are.
    pub fn count(self) -> u32
        ensures { result ≡ length (bounds_list self) }
    {
        1 + u32::from(self.upper.is_some())
    }
}

impl fmt::Display for Bound {
    ghost output = { λ x. Some (bound_text x) };

    fn fmt<W: fmt::Write>(&self, f: &mut fmt::Formatter<W>) -> fmt::Result {
        match self {
            Bound::AtLeast(name, limit) => write!(f, "{name} - {limit} >= 0"),
            Bound::LessThan(name, limit) => write!(f, "{limit} - {name} > 0"),
        }
    }
}

impl fmt::Display for Bounds {
    ghost output = { λ x. Some (bounds_text x) };

    fn fmt<W: fmt::Write>(&self, f: &mut fmt::Formatter<W>) -> fmt::Result {
        let lower = self.lower;
        match self.upper {
            None => write!(f, "{lower}"),
            Some(upper) => write!(f, "{lower}, {upper}"),
        }
    }
}
