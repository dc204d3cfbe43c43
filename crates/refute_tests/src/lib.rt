//! The row of what one trace refutes between its segments.
#![tactic(auto)]

mod clearing;
pub mod laws;
mod margins;
mod marks;
mod merging;
mod pairs;
mod segments;
mod sorting;
mod tables;
mod words;

pub use clearing::{clear_if, starts_early};
pub use segments::{clear_segments, segment_row};
