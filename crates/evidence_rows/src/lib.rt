//! The rows of the evidence: of each kind those that are told, that enough traces support and that
//! others do not imply, in the order of their support.
#![tactic(auto)]

mod finding;
mod of_names;
mod of_tasks;

pub use finding::find_rows;
