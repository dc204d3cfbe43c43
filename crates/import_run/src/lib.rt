//! The program `mystery import` as one call: `run` reads arguments and files, of event lines or of
//! spans, and writes event lines, over any files and sinks.
#![tactic(auto)]

mod asked;
mod command_line;
mod form;
mod input;
mod input_reading;
mod notes;
mod outcome;
mod program;
mod span_reason;
mod span_writing;
mod text_writing;

pub use form::Form;
pub use notes::Notes;
pub use outcome::Outcome;
pub use program::run;
pub use span_reason::SpanReason;
