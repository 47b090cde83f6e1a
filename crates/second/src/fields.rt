// The fields of records, each held to its range.
use crate::cause::Cause;
use crate::fact::{Names, Row, Term};
use crate::sent::Position;

/// The largest name, letter and count.
const LAST_NAME: u8 = 31;

const LAST_LETTER: u8 = 15;

const LAST_COUNT: u16 = 4095;

/// The largest size of a sent constant or coefficient, and of a factor.
const LARGEST_SENT: u32 = 1_000_000_000;

const LARGEST_FACTOR: u32 = 1_000_000;

/// The fields of a record that are not read yet, and the place of the next one: the kind is at 0.
#[derive(Drop)]
pub struct Fields<'a> {
    rest: &'a [u8],
    place: usize,
}

// A field's value, where it is in its range.
fn in_range<T: Drop>(place: usize, value: T, holds: bool) -> Result<T, Cause> {
    if holds {
        Ok(value)
    } else {
        Err(Cause::field(place))
    }
}

impl<'a> Fields<'a> {
    // All fields of a record, which begin after the kind.
    pub fn of(body: &'a [u8]) -> Fields<'a> {
        Fields {
            rest: body,
            place: 1,
        }
    }

    // The next bytes.
    fn bytes<const N: usize>(&mut self) -> [u8; N] {
        match self.rest.split_first_chunk() {
            Some((bytes, rest)) => {
                self.rest = rest;
                self.place = self.place.saturating_add(N);
                *bytes
            }
            None => [0; N],
        }
    }

    // Any byte.
    pub fn byte(&mut self) -> u8 {
        let [byte] = self.bytes::<1>();
        byte
    }

    // A byte that is at most `last`.
    fn at_most(&mut self, last: u8) -> Result<u8, Cause> {
        let place = self.place;
        let byte = self.byte();
        in_range(place, byte, byte <= last)
    }

    // A signed number of four bytes that is at most `limit` in size.
    fn sized(&mut self, limit: u32) -> Result<i128, Cause> {
        let place = self.place;
        let number = i32::from_le_bytes(self.bytes());
        in_range(place, i128::from(number), number.unsigned_abs() <= limit)
    }

    // A name.
    pub fn name(&mut self) -> Result<u8, Cause> {
        self.at_most(LAST_NAME)
    }

    // Two names.
    pub fn names(&mut self) -> Result<Names, Cause> {
        let first = self.name()?;
        let second = self.name()?;
        Ok(Names { first, second })
    }

    // Whether a fact is turned.
    pub fn turned(&mut self) -> Result<bool, Cause> {
        Ok(self.at_most(1)? == 1)
    }

    // An argument's position.
    pub fn position(&mut self) -> Result<Position, Cause> {
        let place = self.place;
        match self.byte() {
            1 => Ok(Position::First),
            2 => Ok(Position::Second),
            _ => Err(Cause::field(place)),
        }
    }

    // A factor.
    pub fn factor(&mut self) -> Result<i128, Cause> {
        self.sized(LARGEST_FACTOR)
    }

    // The count of a reading.
    pub fn count(&mut self) -> Result<u16, Cause> {
        let place = self.place;
        let count = u16::from_le_bytes(self.bytes());
        in_range(place, count, count <= LAST_COUNT)
    }

    // A term of four bytes: what its letter and second name may be goes by its tag.
    pub fn term(&mut self) -> Result<Term, Cause> {
        let tag = self.at_most(2)?;
        let letter = self.at_most(if tag == 0 { 0 } else { LAST_LETTER })?;
        let first = self.name()?;
        let second = self.at_most(if tag == 2 { LAST_NAME } else { 0 })?;
        Ok(match tag {
            0 => Term::Bare(first),
            1 => Term::One(letter, first),
            _ => Term::Two(letter, first, second),
        })
    }

    // A row: a constant and four pairs of a name and a coefficient.
    pub fn row(&mut self) -> Result<Row, Cause> {
        let mut row = Row::constant(self.sized(LARGEST_SENT)?);
        for _ in 0..4 {
            let name = self.name()?;
            let coefficient = self.sized(LARGEST_SENT)?;
            row.add(name, coefficient);
        }
        Ok(row)
    }
}
