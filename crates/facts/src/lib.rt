// The vocabulary of strain claims: names, terms, rows, facts, comparisons, refusals.
#![tactic(auto)]

mod name;
mod symbol;
mod term;

pub use name::Name;
pub use symbol::Symbol;
pub use term::Term;

mod row;

pub use row::Row;
pub use row::methods::ROW_LIMIT;

mod fact;
mod refusal;

pub use fact::{Comparison, Fact, Relation};
pub use refusal::{Layer, Refusal};

mod literal;

pub use literal::{Literal, SentPair, SentRow, SentTerm};

mod fault;

pub use fault::{BadField, CallFault, Cause, RecordFault};
