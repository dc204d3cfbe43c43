//! Traces that many threads record in one table: each offers its traces to the table's words, and
//! at the end these are the words of exactly the recorded traces.
//!
//! A `Recorder` holds the table. A `Recording` is a pass at it and the traces that this pass
//! offered, in order; its done rows are the whole rows of these traces. `offer_all` shares traces
//! among workers by halving (specs/Halving.antt), one for each share of a recording, and takes
//! watch numbers from readings (specs/Watch.antt). What a number counts stands in
//! specs/Counts.antt.
//!
//! Example: 5 traces among 3 workers. The first half is 1 worker, which takes 5 * 1 / 3 = 1 trace;
//! the other 2 workers share 4 traces, 2 each.
#![tactic(auto)]

mod blocks;
mod closing;
mod counting;
pub mod laws;
mod notes;
mod offering;
mod parts;
mod reading;
mod recorders;
mod recordings;
mod sharing;
mod watch_lines;
mod workers;

pub use closing::RecorderFault;
pub use notes::Note;
pub use offering::{OfferAllFault, offer_all};
pub use recorders::{OfferFault, Recorder};
pub use recordings::Recording;
pub use sharing::JoinFault;
pub use watch_lines::WatchLines;
