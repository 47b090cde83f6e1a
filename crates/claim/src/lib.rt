// Claims: literals, then the steps of a derivation, then a seal or the branches left.
#![tactic(auto)]

mod counts;
mod derivation;
mod opening;
mod run;
mod seal;
mod sent;
mod sheet;
mod step;

pub use counts::Counts;
pub use derivation::Derivation;
pub use opening::Claim;
pub use run::{Transcript, replay};
pub use seal::{Ending, Seal};
pub use sent::SentStep;
pub use sheet::methods::Unentered;
pub use sheet::{Line, Sheet};
pub use step::{Branch, OpenSplit, Step};
