//! The types that the other crates share: texts, logged events, the trace that the events of one
//! request make, the segments that it is cut into, and the same trace by numbers. Contracts see
//! them as plain data: a text as its list of bytes, a list type as its list. The definitions that
//! several crates cite stand here too: what a trace refutes, the relations that survive, renaming.
#![tactic(auto)]

mod event;
mod latest_time;
pub mod laws;
mod name_text;
mod named_segment;
mod named_segment_list;
mod named_trace;
mod named_trace_list;
mod segment;
mod segment_list;
mod short_text;
mod text;
mod timely;
mod trace;

pub use event::Event;
pub use latest_time::{LATEST_TIME, LATEST_TIME_IN_MICROSECONDS};
pub use name_text::NameText;
pub use named_segment::NamedSegment;
pub use named_segment_list::NamedSegmentList;
pub use named_trace::NamedTrace;
pub use named_trace_list::NamedTraceList;
pub use segment::Segment;
pub use segment_list::SegmentList;
pub use text::Text;
pub use timely::are_timely;
pub use trace::Trace;
