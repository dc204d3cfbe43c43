//! A book of days with a journal: each entry that changed the book, with its traces, in order. The
//! book is always the replay of its journal, which has at most 10,000 entries.
#![tactic(auto)]

mod copying;
mod deed_fault;
mod entry;
mod finding;
mod journaled_book;
pub mod laws;
mod roll_fault;

pub use deed_fault::DeedFault;
pub use entry::Entry;
pub use journaled_book::JournaledBook;
pub use roll_fault::RollFault;
