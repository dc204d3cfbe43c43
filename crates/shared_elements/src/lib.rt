//! Which elements a task handles in a trace, and how many two tasks share there.
#![tactic(auto)]

mod common;
mod elements;

pub use common::count_common;
pub use elements::list_elements;
