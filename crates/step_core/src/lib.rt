//! The plain machine: what a table of words does, one step after another in one thread, to be
//! looked at and tried by hand. Its steps are read from files.
#![tactic(auto)]

mod changes;
mod copy;
mod cutting;
mod faults;
pub mod laws;
mod machine;
mod numbered_lines;
mod numbers;
mod reading;
mod rows;
mod seat;
mod start;
mod step_event_list;
mod step_fault;
mod step_file;
mod step_line_error;
mod step_lines;
mod tables;

pub use machine::Machine;
pub use numbered_lines::{NumberedLine, next_line};
pub use numbers::plain_number;
pub use reading::read_steps;
pub use start::Start;
pub use step_event_list::StepEventList;
pub use step_fault::StepFault;
pub use step_file::StepFile;
pub use step_line_error::StepLineError;
pub use word_rows::{Reply, StepEvent};
