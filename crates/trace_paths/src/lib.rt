//! The critical paths of traces: of one trace under a model, and of many by the workers; and how
//! long the segments of each name last.
#![tactic(auto)]

mod all_paths;
mod critical;
mod duration_table;
mod kept;
pub mod laws;
mod name_order;

pub use all_paths::critical_paths;
pub use critical::critical_path;
pub use duration_table::{DurationTable, duration_of};
pub use kept::kept_traces;
pub use name_order::names_in_order;
