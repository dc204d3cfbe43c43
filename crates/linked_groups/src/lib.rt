//! Groups of numbers that links join.
#![tactic(auto)]

mod groups;
pub mod laws;

pub use groups::find_groups;
