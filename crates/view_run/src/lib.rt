//! The program `mystery view` as one call: `run` reads the rows of a page from a file and writes the
//! page, over any files and sinks.
#![tactic(auto)]

mod command_line;
mod message;
mod outcome;
mod program;

pub use outcome::Outcome;
pub use program::run;
