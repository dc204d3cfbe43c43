//! The program `mystery inspect` as one call: `run` reads arguments and files and writes rows that
//! tell the quality of the input, over any files and sinks.
#![tactic(auto)]

mod all_rows;
mod command_line;
mod grace_rows;
mod input_reading;
mod labels;
pub mod laws;
mod level;
mod line_counts;
mod line_rows;
mod listed;
mod machine_rows;
mod measures;
mod message;
mod name_rows;
mod near_rows;
mod outcome;
mod program;
mod row;
mod subject;
mod trace_rows;
mod traces;
mod workers;

pub use level::Level;
pub use outcome::Outcome;
pub use program::run;
