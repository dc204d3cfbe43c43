//! How a book of days has the kept traces of a session, under the numbers of a catalogue, and what
//! each change of the book does to them, and what watch lines are by text: laws over the
//! definitions alone.
#![tactic(auto)]

pub mod laws;
