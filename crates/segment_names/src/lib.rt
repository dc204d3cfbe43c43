//! The catalogue of segment names and tasks: it numbers both by first sight, at most 512 names and
//! 64 tasks, and turns a trace that is named by texts into one that is named by numbers.
#![tactic(auto)]

mod catalogue;
mod hints;
pub mod laws;
mod name_fault;
mod name_key;
mod name_one;
mod namer;
mod naming;
mod slot;
mod tables;
mod unnamed;

pub use catalogue::Catalogue;
pub use name_fault::{NameFault, NameLimit};
pub use name_one::NameOne;
pub use namer::Namer;
