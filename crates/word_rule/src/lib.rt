//! A table of words that many threads clear by single steps: passes that offer rows and read, notes
//! that tell what was done, and a close that gives the words of exactly the rows offered.
//!
//! The rule of a table is `HasHistory` (specs/Rule.antt); `OneHistory` (src/rule.rt) carries it:
//! between any two atomic steps of any threads the table is the step machine of `word_rows` after
//! one list of events, its history. The words used here:
//!
//! - seat: what a thread steps with; its view is what it did and was told. A pass is a seat with
//!   shares, a note one without. The shares of all passes add up to the number at opening.
//! - done rows, seen rows, readings: the rows that a pass offered, those that it was told of, and
//!   the values that it read.
//! - past: a prefix of the history that a pass knows: all events up to its last offer or read.
//!
//! Example: a table of one word is opened with 2 shares and split. The first pass offers the row
//! that clears bit 0 of word 0, and the second reads 0xfffffffffffffffe. The first then knows the
//! past [Split 0 1, Clear 0 row], the second [Split 0 1, Clear 0 row, Load 1 0]. The contract of
//! `read` says that its load stands, with this reply, in each history that goes on from the second
//! past, and that some pass had offered, or was offering, a row with bit 0 before it. After the
//! join both calls stand in the one history that `close` gives.
#![tactic(auto)]

mod closing;
pub mod laws;
mod notes;
mod offering;
mod passes;
mod plays;
mod reading;
mod rule;
mod sharing;
mod single_steps;
mod tables;
pub mod uses;

pub use closing::{CloseFault, Closed};
pub use notes::Note;
pub use passes::Pass;
pub use tables::MeetTable;
