//! The printed certificate of a book of days, which names for each refuted relation the first trace
//! that refutes it, and the printed check of one.
#![tactic(auto)]

mod certificate_printing;
mod counting;
mod kind;
pub mod laws;
mod numbers;
mod row_texts;
mod row_walks;
mod source;
mod verdict_printing;

pub use certificate_printing::print_certificate;
pub use numbers::{names_in_order, tasks_in_order};
pub use verdict_printing::print_verdicts;
