//! The rows of what one trace refutes, and the sheet of a day's traces.
#![tactic(auto)]

mod day_sheet;
mod groups;
pub mod laws;
mod meetings;
mod pairs;
mod sheets;
mod stays;
mod tasks;
mod whole_rows;

pub use day_sheet::DaySheet;
pub use whole_rows::{RowRoom, task_row, whole_row};
