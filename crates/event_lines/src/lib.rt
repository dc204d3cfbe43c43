//! The lines of the input: cut at line feeds, numbered, and read in parallel as events and
//! commands, up to the first bad line, which is an error with its reason. Events are kept as
//! numbers beside tables of their texts.
#![tactic(auto)]

mod blank_lines;
mod command;
mod command_reading;
mod event_parts;
mod flat_lines;
mod input_reading;
pub mod laws;
mod line;
mod line_error;
mod line_parts;
mod line_reader;
mod line_reading;
mod line_run;
mod lines;
mod lines_read;
mod lines_so_far;
mod object_members;
mod pieces;
mod plain_lines;
mod rising;
mod run_builder;
mod text_rules;
mod time_unit;
mod value_fields;
mod why;

pub use blank_lines::is_blank_line;
pub use command::Command;
pub use event_parts::EventParts;
pub use input_reading::read_lines;
pub use line::Line;
pub use line_error::LineError;
pub use line_parts::LineParts;
pub use line_reader::LineReader;
pub use line_run::{ControlLine, LineRun};
pub use rising::lines_rise;
pub use text_rules::is_bad_text;
pub use why::Why;

#[cfg(test)]
mod tests;
