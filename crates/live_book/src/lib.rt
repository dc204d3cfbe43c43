//! A shared book of days: callers on many threads roll sheets into it, drop days, ask for the
//! relations that survive, and read its journal.
//!
//! The book with its journal stands in the one slot of a table, beside three words: the tickets
//! drawn, the ticket served and the number of entries. A call draws a ticket, waits until it is the
//! one served, takes the book out of the slot, and brings it back before it passes its turn on. The
//! rule of the table is `IsLive` (specs/Rule.antt); it holds between any two atomic steps of any
//! threads.
//!
//! A caller's front is the journal as far as it has seen it. After each of the five calls that wait
//! it is the whole journal as the call left it: the call's turn stands in the one history of the
//! book, in which each turn found what the turn before it left (specs/Histories.antt), and what the
//! caller is told is the replay of its front.
//!
//! Example (`recorders.rt` of `day_checks`): a program records the traces of a day, while it rolls
//! others:
//!
//! 1. `trace_pass::Recorder::open` with the book's number of names; `Recorder::offer` for each
//!    trace of the day, by one recording or, after `split`, by one on each thread;
//! 2. `Recorder::close`: the `DaySheet` of exactly these traces;
//! 3. `LiveBook::roll` with the day and this sheet: the journal has one entry more, with these
//!    traces, and `ask` gives the relations that all traces of the kept days leave.
//!
//! What a program has to know:
//!
//! - Dropping a caller does not return its turns: no other caller can make those calls.
//! - A thread that dies in its turn stops all others: they wait for a turn that is never passed on.
//! - No order is promised between callers that were never joined, and no progress: no contract says
//!   that a turn ever comes.
#![tactic(auto)]

mod asking;
mod callers;
mod dropping;
mod journals;
pub mod laws;
mod live_book;
mod plays;
mod rolling;
mod rule;
mod sharing;
mod single_steps;
mod turns;

pub use callers::Caller;
pub use live_book::LiveBook;
pub use live_journal::{DeedFault, Entry, RollFault};
pub use rule::{Knowledge, OneJournal, Plan, Stage, Turn};
