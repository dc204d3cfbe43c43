//! The page of a text of rows: one file of HTML that stands alone, with the head, the ranking, the
//! loads, the slowest of them beside the rest, the slack of each name, and the relations, as a
//! matrix and as a graph.
#![tactic(auto)]

mod texts;
mod view;

pub use view::{draw_page, view_rows};
