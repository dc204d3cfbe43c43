//! Which names and tasks the kept traces of a book have, listed in their order with their numbers.
#![tactic(auto)]

mod listed;
mod listing;
mod marking;
mod marks;

pub use listed::Listed;
pub use listing::{list_names, list_tasks};
pub use marking::{count_traces, mark_book};
pub use marks::Marks;
