//! The spans of a file of OpenTelemetry: JSON of its protocol, a value a line, as its exporters
//! write files, or one value for the whole file.
#![tactic(auto)]

mod file_lines;
mod line_cuts;
mod line_reading;

pub use file_lines::read_spans;
