//! What if some segments took less time: how long a trace's critical path is, and how long it would
//! be.
#![tactic(auto)]

mod change;
pub mod laws;
mod prediction;

pub use change::{Change, are_no_greater};
pub use prediction::predict;
