use crate::name::Name;
use crate::row::Row;
use crate::term::Term;

// How a row compares with 0.
#[derive(Clone, Copy, PartialEq, Eq, Debug)]
pub enum Relation {
    // row >= 0
    NonNegative,
    // row > 0
    Positive,
    // row = 0
    Zero,
}

// A statement about the names that a valuation makes true or false.
#[derive(Clone, Copy)]
pub enum Fact {
    // the two terms have one number
    Equal(Term, Term),
    // they have two
    Distinct(Term, Term),
    // the row compares so with 0
    Linear(Relation, Row),
}

// How two names compare: what a branch of a split assumes, or what one theory tells the others.
#[derive(Clone, Copy)]
pub enum Comparison {
    Less(Name, Name),
    Equal(Name, Name),
    Greater(Name, Name),
}
