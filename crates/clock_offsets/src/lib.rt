//! Clock offsets of the machines of a trace, by a breadth-first search from the reference.
//!
//! The reference is the machine of the first event. Machines are paired where messages go in both
//! directions; the search goes from paired machine to paired machine, and each machine's offset is
//! its parent's plus its own relative to the parent. Machines and tasks are told apart by the
//! numbers of their texts, by a table of the places where they came first, which the cutting of
//! traces uses too; messages by their bytes.
#![tactic(auto)]

mod clock_fault;
mod delays;
mod digests;
mod first_events;
mod frontier;
pub mod laws;
mod link;
mod links;
mod machine_clock;
mod machine_clocks;
mod message;
mod message_entry;
mod message_places;
mod messages;
mod number_entry;
mod number_places;
mod parents;
mod places;
mod search;
mod searched;
mod trace_offsets;

pub use clock_fault::ClockFault;
pub use first_events::{Field, find_first_events};
pub use machine_clock::{Clock, MachineClock};
pub use machine_clocks::find_machine_clocks;
pub use number_places::NumberPlaces;
pub use trace_offsets::offsets;
