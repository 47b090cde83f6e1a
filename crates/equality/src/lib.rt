// Equality with unknown functions: theory 1.
#![tactic(auto)]

mod logic;
mod steps;
mod terms;

pub use logic::Equality;
