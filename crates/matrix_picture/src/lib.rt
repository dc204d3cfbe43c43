//! The relations between the boxes of the model, as a matrix: a cell for each two boxes, and
//! frames around those of pipelines.
#![tactic(auto)]

mod cell;
mod frames;
mod labels;
pub mod laws;
mod mark;
mod matrix;
mod texts;

pub use mark::Mark;
pub use matrix::push_matrix;
