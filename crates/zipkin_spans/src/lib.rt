//! The spans of a file of Zipkin: a list of spans, or a list of traces, which are lists of spans.
#![tactic(auto)]

mod elements;
mod file_reading;
mod halves;
mod kinds;
mod span_reading;

pub use file_reading::read_spans;
