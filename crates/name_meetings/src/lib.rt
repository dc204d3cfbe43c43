//! The figures of the meetings of all names of many traces: a table with an entry for each two
//! names, which serves them in either order. Sixteen rows are filled at a time, by several workers.
#![tactic(auto)]

mod circle;
mod gap;
mod meeting_table;
mod noting;
mod pair_figures;
mod strip_table;

pub use meeting_table::{MeetingTable, meet_all};
