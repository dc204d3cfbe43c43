//! What the readers of spans share, whatever form the spans are exported in: the members of the
//! JSON objects, ids, numbers and tags, the times of a span, and the reasons that a span is bad.
#![tactic(auto)]

mod ids;
mod item_reader;
mod lookup;
mod member;
mod numbered_reader;
mod numbers;
mod parsing;
mod placed;
mod read_error;
mod span_making;
mod span_times;
mod tags;
mod why;

pub use ids::{optional_id, required_id};
pub use item_reader::{ItemReader, read_items};
pub use lookup::{
    given, is_object, list_items, no_items, objects, objects_of, optional_object, optional_text,
    required, required_text,
};
pub use member::Member;
pub use numbered_reader::{NumberedReader, read_numbered_items};
pub use numbers::{optional_whole, required_whole, whole_number, whole_value};
pub use parsing::{is_json, parse};
pub use placed::{Fault, Placed, SpanError};
pub use read_error::ReadError;
pub use span_making::{Origin, SpanIds, make_span};
pub use span_times::{micro_times, times};
pub use tags::{TagForm, tag};
pub use why::Why;
