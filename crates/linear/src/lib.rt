// The theories over rows: their rules for fractions, and for whole numbers.
#![tactic(auto)]

mod content;
mod cut;
mod difference;
mod division;
mod domain;
mod gcd;
mod question;
mod rows;
mod rule;
mod sum;

pub use rows::{Fractions, Rows, Whole};
