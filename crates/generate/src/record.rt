// Records of claim files, as they are written. The types are the generator's own: it shares no code with
// what it tests.
use arrayvec::ArrayVec;
use std::alloc::{AllocError, Global};

/// A term as it is sent, whether its fields are in range or not.
#[derive(Clone, Copy, Default)]
pub struct Term {
    pub tag: u8,
    pub letter: u8,
    pub first: u8,
    pub second: u8,
}

/// An argument of a symbol.
#[derive(Clone, Copy)]
pub enum Position {
    First = 1,
    Second = 2,
}

impl Term {
    // A bare name.
    pub fn bare(name: u8) -> Term {
        Term {
            first: name,
            ..Term::default()
        }
    }

    // A symbol with one place.
    pub fn one(letter: u8, name: u8) -> Term {
        Term {
            tag: 1,
            letter,
            ..Term::bare(name)
        }
    }

    // A symbol with two places.
    pub fn two(letter: u8, first: u8, second: u8) -> Term {
        Term {
            tag: 2,
            letter,
            first,
            second,
        }
    }
}

/// Two names.
#[derive(Clone, Copy)]
pub struct Names(pub u8, pub u8);

impl Names {
    // The second name first.
    pub fn exchanged(self) -> Names {
        Names(self.1, self.0)
    }
}

/// A name and its coefficient.
#[derive(Clone, Copy, Default)]
pub struct Pair {
    pub name: u8,
    pub coefficient: i32,
}

/// A row as it is sent, whether its fields are in range or not.
#[derive(Clone, Copy)]
pub struct Row {
    pub constant: i32,
    pub pairs: [Pair; 4],
}

impl Row {
    // k times the first name less j times the second, and a constant. Pairs with the coefficient 0 follow both.
    fn of(k: i32, j: i32, names: Names, constant: i32) -> Row {
        let plus = Pair {
            name: names.0,
            coefficient: k,
        };
        let minus = Pair {
            name: names.1,
            coefficient: j.saturating_neg(),
        };
        Row {
            constant,
            pairs: [plus, Pair::default(), minus, Pair::default()],
        }
    }

    // k times the first name less k times the second, and a constant.
    pub fn difference(k: i32, names: Names, constant: i32) -> Row {
        Row::of(k, k, names, constant)
    }

    // k times a name, and a constant.
    pub fn multiple(k: i32, name: u8, constant: i32) -> Row {
        Row::of(k, 0, Names(name, name), constant)
    }
}

/// A relation of a row's literal.
#[derive(Clone, Copy, PartialEq, Eq)]
pub enum Relation {
    AtLeast,
    Above,
    Zero,
}

// The kind of its records.
impl From<Relation> for u8 {
    fn from(relation: Relation) -> u8 {
        match relation {
            Relation::AtLeast => b'G',
            Relation::Above => b'S',
            Relation::Zero => b'Z',
        }
    }
}

/// The most bytes of a record: a literal over a row.
const LONGEST_RECORD: usize = 25;

/// Records, in the order of their file. They lie in the list, and not each on the heap.
#[derive(Drop)]
pub struct Records {
    pub list: Vec<ArrayVec<u8, LONGEST_RECORD>>,
}

impl Records {
    // No records.
    pub fn new(heap: Global) -> Records {
        Records {
            list: Vec::new(heap),
        }
    }

    // Their bytes.
    pub fn into_bytes(self) -> Result<Vec<u8>, AllocError> {
        let mut bytes = Vec::new(*self.list.allocator());
        for record in self.list.iter() {
            bytes.extend_from_slice(record.as_slice())?;
        }
        Ok(bytes)
    }

    // A record of these bytes, which are at most 25: a longer one would end as want of memory does.
    pub fn put(&mut self, record: &[u8]) -> Result<(), AllocError> {
        let mut bytes = ArrayVec::new();
        bytes.extend(record.iter().copied())?;
        self.list.push(bytes)?;
        Ok(())
    }

    // A literal over two terms, of the kind E or D.
    pub fn terms(&mut self, kind: u8, t: Term, u: Term) -> Result<(), AllocError> {
        self.put(&[
            kind, t.tag, t.letter, t.first, t.second, u.tag, u.letter, u.first, u.second,
        ])
    }

    // A literal over a row.
    pub fn row(&mut self, relation: Relation, row: &Row) -> Result<(), AllocError> {
        let mut record = ArrayVec::new();
        record.extend([u8::from(relation)])?;
        record.extend(row.constant.to_le_bytes())?;
        for pair in row.pairs {
            record.extend([pair.name])?;
            record.extend(pair.coefficient.to_le_bytes())?;
        }
        self.list.push(record)?;
        Ok(())
    }

    // A reading.
    pub fn reading(&mut self, name: u8, count: u16) -> Result<(), AllocError> {
        let [low, high] = count.to_le_bytes();
        self.put(&[b'K', name, low, high])
    }

    // Reflexivity.
    pub fn reflexivity(&mut self, address: u8, t: Term) -> Result<(), AllocError> {
        self.put(&[b'R', address, t.tag, t.letter, t.first, t.second])
    }

    // Transitivity.
    pub fn transitivity(&mut self, fact: u8, turned: bool) -> Result<(), AllocError> {
        self.put(&[b'T', 0, fact, u8::from(turned)])
    }

    // Congruence at an argument's position.
    pub fn congruence(
        &mut self,
        fact: u8,
        position: Position,
        turned: bool,
    ) -> Result<(), AllocError> {
        self.put(&[b'C', 0, fact, position as u8, u8::from(turned)])
    }

    // A contradiction with a fact t ≠ u.
    pub fn clash(&mut self, fact: u8) -> Result<(), AllocError> {
        self.put(&[b'N', 0, fact])
    }

    // Handing an equality on.
    pub fn propagate(&mut self) -> Result<(), AllocError> {
        self.put(&[b'X', 0])
    }

    // The row 0 ≥ 0.
    pub fn zero(&mut self) -> Result<(), AllocError> {
        self.put(&[b'O', 1])
    }

    // Adding a multiple of a fact.
    pub fn add(&mut self, address: u8, fact: u8, factor: i32) -> Result<(), AllocError> {
        let [a, b, c, d] = factor.to_le_bytes();
        self.put(&[b'M', address, fact, a, b, c, d])
    }

    // Handing on that two names are equal, by a fact.
    pub fn antisymmetry(&mut self, fact: u8, names: Names) -> Result<(), AllocError> {
        self.put(&[b'Q', 1, fact, names.0, names.1])
    }

    // A contradiction of the current row.
    pub fn falsify(&mut self) -> Result<(), AllocError> {
        self.put(&[b'F', 1])
    }

    // From row > 0 to row − 1 ≥ 0.
    pub fn strengthen(&mut self) -> Result<(), AllocError> {
        self.put(&[b'I', 1])
    }

    // Dividing the current row, and rounding down.
    pub fn cut(&mut self) -> Result<(), AllocError> {
        self.put(&[b'U', 1])
    }
}
