// A file that is being made.
use crate::random::Random;
use crate::record::{Names, Records, Relation, Row, Term};
use std::alloc::{AllocError, Global};

/// The address of equality, and that of rows.
#[derive(Clone, Copy)]
pub enum Address {
    Terms = 0,
    Rows = 1,
}

/// How many facts stand at the two addresses, and how many splits are open.
#[derive(Clone, Copy, Default)]
pub struct Facts {
    pub terms: u8,
    pub rows: u8,
    pub depth: u8,
}

impl Facts {
    // How many facts stand at an address.
    pub fn at(&self, address: Address) -> u8 {
        match address {
            Address::Terms => self.terms,
            Address::Rows => self.rows,
        }
    }

    // One more fact at an address; its number.
    fn one_more(&mut self, address: Address) -> u8 {
        let number = self.at(address);
        match address {
            Address::Terms => self.terms = number.saturating_add(1),
            Address::Rows => self.rows = number.saturating_add(1),
        }
        number
    }
}

/// The numbers of the facts that the two addresses keep of what they are told.
#[derive(Clone, Copy)]
pub struct Told {
    pub term: u8,
    pub row: u8,
}

/// Records, how many of them stand before the steps, the facts that a checker has after them, and the
/// choices that are left.
#[derive(Drop)]
pub struct Draft {
    pub random: Random,
    pub records: Records,
    pub begun: usize,
    pub facts: Facts,
}

impl Draft {
    // No records.
    pub fn new(heap: Global, random: Random) -> Draft {
        Draft {
            random,
            records: Records::new(heap),
            begun: 0,
            facts: Facts::default(),
        }
    }

    // The bytes of the records.
    pub fn into_bytes(self) -> Result<Vec<u8>, AllocError> {
        self.records.into_bytes()
    }

    // The begin.
    pub fn begin(&mut self) -> Result<(), AllocError> {
        self.records.put(&[b'B'])?;
        self.begun = self.records.list.len();
        Ok(())
    }

    // A literal t = u; its number.
    pub fn equal(&mut self, t: Term, u: Term) -> Result<u8, AllocError> {
        self.records.terms(b'E', t, u)?;
        Ok(self.facts.one_more(Address::Terms))
    }

    // A literal t = u, written u = t if it is turned; its number.
    pub fn equal_turned(&mut self, turned: bool, t: Term, u: Term) -> Result<u8, AllocError> {
        if turned {
            self.equal(u, t)
        } else {
            self.equal(t, u)
        }
    }

    // A literal t ≠ u, in either order; its number.
    pub fn different(&mut self, t: Term, u: Term) -> Result<u8, AllocError> {
        if self.random.coin() {
            self.records.terms(b'D', t, u)?;
        } else {
            self.records.terms(b'D', u, t)?;
        }
        Ok(self.facts.one_more(Address::Terms))
    }

    // A literal over a row; its number.
    pub fn row(&mut self, relation: Relation, row: &Row) -> Result<u8, AllocError> {
        self.records.row(relation, row)?;
        Ok(self.facts.one_more(Address::Rows))
    }

    // A reading; the number of its first fact.
    pub fn reading(&mut self, name: u8, count: u16) -> Result<u8, AllocError> {
        self.records.reading(name, count)?;
        let first = self.facts.one_more(Address::Rows);
        if count < 4095 {
            self.facts.one_more(Address::Rows);
        }
        Ok(first)
    }

    // A push; the fact's number.
    pub fn push(&mut self, address: Address) -> Result<u8, AllocError> {
        self.records.put(&[b'P', address as u8])?;
        Ok(self.facts.one_more(address))
    }

    // Both addresses are told something; the numbers of what they keep.
    pub fn told(&mut self) -> Told {
        Told {
            term: self.facts.one_more(Address::Terms),
            row: self.facts.one_more(Address::Rows),
        }
    }

    // A split; the numbers of what is told in each of its branches.
    pub fn split(&mut self, names: Names) -> Result<Told, AllocError> {
        self.records.put(&[b'Y', names.0, names.1])?;
        self.facts.depth = self.facts.depth.saturating_add(1);
        Ok(self.told())
    }
}
