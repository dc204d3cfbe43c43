//! The ranking of a page: all latency as one strip, and the segments on critical paths in a table,
//! the longest first, with what each would gain.
#![tactic(auto)]

pub mod laws;
mod ranked_row;
mod ranking;
mod rows;
mod scale;
mod strip;
mod table;
mod texts;

pub use ranked_row::RankedRow;
pub use ranking::rank_segments;
pub use rows::push_ranking;
pub use scale::Scale;
