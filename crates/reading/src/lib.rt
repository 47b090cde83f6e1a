// Readings of the converter: the literals that a stored count states, and reading lists as text.
#![tactic(auto)]

mod bound;

pub use bound::{Bound, Bounds};

mod count;

pub use count::{HIGHEST_COUNT, SentReading};

mod list;

pub use list::{LONGEST_INPUT, report};
