// A literal as a caller sends it: its fields are raw, and may be out of range.
ghost use Rattle.std.specs.Prelude.{◌≡◌, ◌+◌, ◌*◌, ◌≤◌, length, pos, ◌+ℤ◌, Some, None, Decides, MatchResult, slice_index_or, slice_set};
ghost use Rattle.facts.specs.Fields.{TermChecked, RowChecked, SidesChecked, first_bad, term_fields, sent};
ghost use Rattle.facts.specs.Literals.{LiteralChecked};
ghost use Rattle.facts.specs.Sizes.{Sized, sent_limit};

use crate::fact::{Fact, Relation};
use crate::fault::BadField;
use crate::name::Name;
use crate::row::Row;
use crate::symbol::Symbol;
use crate::term::Term;

// The largest size of a constant or a coefficient that is sent.
pub const SENT_LIMIT: i32 = 1_000_000_000;

// A term in four bytes. Tag 0 is a bare name, 1 and 2 a symbol with one and two places.
#[derive(Clone, Copy)]
pub struct SentTerm {
    pub tag: u8,
    pub letter: u8,
    pub first: u8,
    pub second: u8,
}

// A name and its coefficient.
#[derive(Clone, Copy)]
pub struct SentPair {
    pub name: u8,
    pub coefficient: i32,
}

// A constant and four names with coefficients; where a name stands twice, its coefficients add.
#[derive(Clone, Copy)]
pub struct SentRow {
    pub constant: i32,
    pub pairs: [SentPair; 4],
}

#[derive(Clone, Copy)]
pub enum Literal {
    Equal(SentTerm, SentTerm),
    Distinct(SentTerm, SentTerm),
    Linear(Relation, SentRow),
}

impl SentTerm {
    // The term, or its first bad field, counted from its tag.
    pub fn check(self) -> Result<Term, BadField>
        ensures { TermChecked self result }
    {
        match self.tag {
            0 => self.check_bare(),
            1 => self.check_unary(),
            2 => self.check_binary(),
            _ => Err(BadField { byte: 0 }),
        }
    }
}

impl SentTerm {
    // The term, or its first bad field in a record where it begins at a byte.
    fn check_at(self, at: u8) -> Result<Term, BadField>
        requires { at ≤ 8 }
        ensures { MatchResult result (λ t. (first_bad (term_fields at self) ≡ None) × (sent t ≡ self)) (λ bad. first_bad (term_fields at self) ≡ Some bad.byte) }
    {
        self.check().map_err(|bad| BadField {
            byte: at + bad.byte,
        })
    }

    fn check_bare(self) -> Result<Term, BadField>
        requires { self.tag ≡ 0 }
        ensures { TermChecked self result }
    {
        if self.letter != 0 {
            return Err(BadField { byte: 1 });
        }
        let name = Name::new(self.first).ok_or(BadField { byte: 2 })?;
        if self.second != 0 {
            return Err(BadField { byte: 3 });
        }
        Ok(Term::Bare(name))
    }

    fn check_unary(self) -> Result<Term, BadField>
        requires { self.tag ≡ 1 }
        ensures { TermChecked self result }
    {
        let symbol = Symbol::new(self.letter).ok_or(BadField { byte: 1 })?;
        let name = Name::new(self.first).ok_or(BadField { byte: 2 })?;
        if self.second != 0 {
            return Err(BadField { byte: 3 });
        }
        Ok(Term::Unary(symbol, name))
    }

    fn check_binary(self) -> Result<Term, BadField>
        requires { self.tag ≡ 2 }
        ensures { TermChecked self result }
    {
        let symbol = Symbol::new(self.letter).ok_or(BadField { byte: 1 })?;
        let first = Name::new(self.first).ok_or(BadField { byte: 2 })?;
        let second = Name::new(self.second).ok_or(BadField { byte: 3 })?;
        Ok(Term::Binary(symbol, first, second))
    }
}

// Whether a number is small enough to be sent.
fn sendable(number: i32) -> bool
    ensures { Decides result (Sized sent_limit number) }
{
    (-SENT_LIMIT..=SENT_LIMIT).contains(&number)
}

// Adds a coefficient to a name's.
fn add(coefficients: &mut [i64; 32], name: Name, coefficient: i32)
    requires long { length coefficients.old ≡ 32 }
    requires room { Sized (3 * sent_limit) (slice_index_or coefficients.old name.index (pos 0)) }
    ensures { coefficients.new ≡ slice_set coefficients.old name.index (slice_index_or coefficients.old name.index (pos 0) +ℤ coefficient) }
{
    coefficients[usize::from(name)] += i64::from(coefficient);
}

impl SentRow {
    // The row, or its first bad field in its record.
    pub fn check(self) -> Result<Row, BadField>
        ensures { RowChecked self result }
    {
        if !sendable(self.constant) {
            return Err(BadField { byte: 1 });
        }
        let mut coefficients = [0; 32];
        for (i, pair) in self.pairs.iter().enumerate() {
            let at = u8::try_from(5 + 5 * i).unwrap();
            let name = Name::new(pair.name).ok_or(BadField { byte: at })?;
            if !sendable(pair.coefficient) {
                return Err(BadField { byte: at + 1 });
            }
            add(&mut coefficients, name, pair.coefficient);
        }
        Ok(Row::within(i64::from(self.constant), coefficients))
    }
}

// The two terms of a literal, which begin at bytes 1 and 5 of its record.
fn check_sides(left: SentTerm, right: SentTerm) -> Result<(Term, Term), BadField>
    ensures { SidesChecked left right result }
{
    let t = left.check_at(1)?;
    let u = right.check_at(5)?;
    Ok((t, u))
}

impl Literal {
    // The fact that the literal stands for, or its first bad field in its record.
    pub fn check(self) -> Result<Fact, BadField>
        ensures { LiteralChecked self result }
    {
        match self {
            Literal::Equal(left, right) => {
                let (t, u) = check_sides(left, right)?;
                Ok(Fact::Equal(t, u))
            }
            Literal::Distinct(left, right) => {
                let (t, u) = check_sides(left, right)?;
                Ok(Fact::Distinct(t, u))
            }
            Literal::Linear(how, row) => Ok(Fact::Linear(how, row.check()?)),
        }
    }
}
