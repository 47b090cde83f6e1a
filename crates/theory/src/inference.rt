use crate::factor::Factor;
use facts::{Fact, Name, Term};

// An argument of a term.
#[derive(Clone, Copy)]
pub enum Position {
    First,
    Second,
}

// A rule applied at one address. Facts are numbered from 0, the oldest first, through all levels.
#[derive(Clone, Copy)]
pub enum Inference {
    // R: t = t becomes current
    Reflexivity(Term),
    // T: a current l = a becomes l = b by a fact a = b, or b = a if it is turned
    Transitivity(u8, bool),
    // C: an argument a of the current right side becomes b by such a fact of two names
    Congruence(u8, Position, bool),
    // N: the current equality contradicts a fact a != b
    Clash(u8),
    // X: the current equality of two names is told to every theory
    Propagate,
    // O: 0 >= 0 becomes current
    Zero,
    // M: a multiple of a row fact is added to the current row
    Add(u8, Factor),
    // Q: two names are equal, since neither is below the other
    Antisymmetry(u8, Name, Name),
    // F: the current row has no names, and its relation with 0 fails
    Falsify,
    // I: row > 0 becomes row - 1 >= 0
    Strengthen,
    // U: a row >= 0 is divided, and its constant rounded down
    Cut,
    // P: the current fact is pushed, and stays current
    Push,
}

// What an inference that is not refused comes to.
#[derive(Clone, Copy)]
pub enum Outcome {
    // a new current fact
    Current(Fact),
    // a fact at the end of the newest level
    Pushed(Fact),
    // two names are equal, which every address is to be told
    Equal(Name, Name),
    // no valuation that is admitted makes the facts and the current fact true
    Contradiction,
}
