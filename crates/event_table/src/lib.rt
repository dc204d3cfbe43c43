//! Events as numbers beside tables of their texts. A text stands once in its table, however many
//! events have it, and an event is a few numbers. Contracts see both as the plain lists of
//! `trace_types`: a table of events as its events, a gathered batch as its traces.
#![tactic(auto)]

mod block;
mod counting;
mod digests;
mod event_fields;
mod event_numbers;
mod event_table;
mod gathered_events;
mod gathering;
mod groups;
mod hints;
pub mod laws;
mod lent_event;
mod limits;
mod message_list;
mod messages;
mod numbered_part;
mod numbering;
mod of_events;
mod placing;
mod raw_events;
mod renumbering;
mod spreading;
mod text_keys;
mod text_table;
mod texts;

pub use digests::digest;
pub use event_fields::EventFields;
pub use event_numbers::EventNumbers;
pub use event_table::EventTable;
pub use gathered_events::GatheredEvents;
pub use gathering::gather;
pub use hints::TextHints;
pub use lent_event::LentEvent;
pub use limits::are_few;
pub use message_list::MessageList;
pub use messages::Messages;
pub use raw_events::RawEvents;
pub use text_table::TextTable;
pub use texts::Texts;
