//! The parts of pictures: where a number lies on a scale, bars across a picture, and the names of
//! segments in markup.
#![tactic(auto)]

mod bars;
pub mod laws;
mod names;
mod places;
mod span;

pub use bars::{begin_caption, push_bar};
pub use names::{push_isolated, push_label, push_title, same_name};
pub use places::{column_of, mean_of, part_of, place_of, span_of, whole_of};
pub use span::Span;
