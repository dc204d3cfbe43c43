//! A model as a graph in layers: which relations are drawn as arrows, in which layer each box is,
//! and where it stands.
#![tactic(auto)]

mod arrows;
mod joining;
mod layering;
mod layout;
mod ordering;
mod place;
mod placing;
mod reaching;
mod seating;

pub use arrows::kept_pairs;
pub use layout::{Layout, lay_out};
pub use place::Place;
