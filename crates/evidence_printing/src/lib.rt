//! The evidence of the kept traces of a book: what stands behind each relation that they leave, and
//! which relations few of them refute, printed.
#![tactic(auto)]

pub mod laws;
mod lists;
mod numbers;
mod places;
mod printing;
mod tables;
mod texts;

pub use printing::print_evidence;
