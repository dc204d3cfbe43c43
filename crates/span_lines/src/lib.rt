//! The event lines of spans.
#![tactic(auto)]

mod event_names;
mod folding;
mod input_names;
mod lent_mapping;
mod lines;
mod messages;
mod moments;
mod naming;
mod placed_calls;
mod printing;
mod requests;
mod span_text;
mod spans;
mod threading;
mod threads;

pub use folding::fold_names;
pub use span_text::SpanText;
pub use spans::print_spans;
