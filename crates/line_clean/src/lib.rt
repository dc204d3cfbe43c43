//! `mystery clean` as one call: `run` prints the good lines of some files, event and control lines,
//! as they stand, and drops blank and bad ones. Files are read a piece at a time.
#![tactic(auto)]

mod carry;
mod clean_fault;
mod cleaning;
mod command_line;
mod first_line;
mod judging;
pub mod laws;
mod line_feeds;
mod message;
mod pieces;
mod program;
mod reading;

pub use clean_fault::CleanFault;
pub use program::run;
