// The interface that every theory meets, and theories made of one table of facts, or of two theories.
#![tactic(auto)]

mod factor;
mod inference;
mod interface;
mod logic;
mod pair;
mod premises;
mod single;
mod table;

pub use factor::Factor;
pub use factor::methods::FACTOR_LIMIT;
pub use inference::{Inference, Outcome, Position};
pub use interface::Theory;
pub use logic::Logic;
pub use pair::Pair;
pub use premises::Premises;
pub use single::Single;
pub use table::Table;
