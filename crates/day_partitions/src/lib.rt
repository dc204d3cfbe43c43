//! Days with their traces, and the words of the relations that no kept trace refutes. The words of
//! each day stand in a leaf of a tree of meets, so a day is added, extended or dropped by a path
//! from one leaf to the root.
#![tactic(auto)]

mod add_all_fault;
mod batches;
mod book_fault;
mod climb;
mod counting;
mod dated_sheet;
mod day;
mod day_book;
mod dropping;
mod finding;
pub mod laws;
mod making;
mod placing;
mod room;
mod tree;

pub use add_all_fault::AddAllFault;
pub use book_fault::BookFault;
pub use dated_sheet::DatedSheet;
pub use day_book::DayBook;
