//! The rows of evidence of two tasks, by places in a list of tasks: those of each kind that enough
//! traces support, in the order of their support, and the table of figures that they come from.
#![tactic(auto)]

mod kind;
mod listing;
mod sharing_table;
mod sorting;

pub use kind::TaskKind;
pub use listing::list_rows;
pub use sharing_table::SharingTable;
pub use sorting::sort_rows;
