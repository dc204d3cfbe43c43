//! The spans of the files of an input, one file after another, in one of the forms that spans are
//! exported in.
#![tactic(auto)]

mod file_spans;
mod span_form;
mod span_place;

pub use file_spans::FileSpans;
pub use span_form::SpanForm;
pub use span_place::SpanPlace;
