//! The model as a graph in layers: a box for each name or task, and an arrow for each relation that
//! no chain of others implies.
#![tactic(auto)]

mod arrows;
mod boxes;
mod graph;
pub mod laws;
mod relations;
mod shares;
mod texts;

pub use graph::push_graph;
