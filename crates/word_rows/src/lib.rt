//! Rows of bits to be cleared, sheets of words, and the step machine: what single steps of many
//! seats do to shared words, and what holds between any two of them.
#![tactic(auto)]

mod entries;
mod events;
pub mod laws;
mod making;
mod replies;
mod sheets;
mod views;

pub use entries::{Entry, Row};
pub use events::StepEvent;
pub use making::RowMaker;
pub use replies::Reply;
pub use sheets::Sheet;
pub use views::{Reading, View};
