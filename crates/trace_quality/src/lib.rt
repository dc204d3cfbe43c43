//! The quality of traces: their times, which are refused and why, which segments are waits, which
//! messages have one end alone, and what all traces of a batch count of these.
#![tactic(auto)]

mod clocks;
mod extremes;
mod finding;
pub mod laws;
mod measure;
mod messages;
mod refusal;
mod slowest;
mod tallies;
mod times;
mod trace_facts;
mod verdicts;
mod waits;

pub use clocks::{ClockCounts, find_trace_clocks, is_contradicted, is_reached};
pub use extremes::find_extremes;
pub use finding::find_facts;
pub use measure::Measure;
pub use messages::MessageCounts;
pub use refusal::Refusal;
pub use slowest::tally_slowest;
pub use tallies::{Tally, add_up};
pub use times::Times;
pub use trace_facts::TraceFacts;
pub use verdicts::Verdict;
