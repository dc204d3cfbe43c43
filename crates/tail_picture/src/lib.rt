//! The slowest loads of a page beside the rest: what differs on the whole, what each name takes on
//! their critical paths, and what it takes rank by rank.
#![tactic(auto)]

mod difference;
mod heat;
pub mod laws;
mod ordering;
mod table;
mod tailed_row;
mod texts;

pub use ordering::order_tail;
pub use table::push_tail;
pub use tailed_row::TailedRow;
