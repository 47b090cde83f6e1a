// Claim files: their records, the check of a whole file, and its verdict as a line.
#![tactic(auto)]

mod checking;
mod fields;
mod printing;
mod reader;
mod record;
mod verdict;

pub use checking::{LONGEST_FILE, check};
pub use printing::report;
pub use record::{Record, Stage, read};
pub use verdict::{Unfinished, Verdict};
