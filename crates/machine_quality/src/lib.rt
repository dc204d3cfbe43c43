//! What all traces of a batch tell of the clock of each machine.
#![tactic(auto)]

mod finding;
pub mod laws;
mod listing;
mod machine_tally;
mod numbered_clock;
mod tallying;

pub use finding::find_told;
pub use listing::list_machines;
pub use machine_tally::{MachineTally, OffsetRange};
pub use numbered_clock::NumberedClock;
pub use tallying::tally_machine;
