//! `mystery split` as one call: `run` writes each event line of some files to one of N files, by a
//! digest of its request, and where it comes from to a file beside that one.
#![tactic(auto)]

mod call_numbers;
mod carry;
mod chunk;
mod command_line;
mod judging;
mod known;
pub mod laws;
mod making;
mod message;
mod names;
mod part;
mod pending;
mod program;
mod putting;
mod reading;
mod reason;
mod split_fault;

pub use program::run;
pub use reason::Reason;
pub use split_fault::SplitFault;
