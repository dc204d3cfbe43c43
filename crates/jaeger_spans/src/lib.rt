//! The spans of a file of Jaeger: traces, each with its spans and the processes that recorded them.
#![tactic(auto)]

mod file_reading;
mod kinds;
mod origins;
mod parents;
mod span_reading;
mod traces;

pub use file_reading::read_spans;
