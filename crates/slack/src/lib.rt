//! The slack of each vertex of a weighted graph: how much its weight can grow so that the longest
//! length stays.
#![tactic(auto)]

mod forward;
mod growth;

pub use growth::{SlackTable, longest_and_slacks, slacks};
