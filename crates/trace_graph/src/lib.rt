//! The dependency graph of one trace, under the relations that the kept traces leave.
#![tactic(auto)]

mod dependency_graph;
pub mod laws;
mod ordered_graph;
mod ordering;
mod pair_test;
mod successors;
mod vertices;

pub use dependency_graph::{graph, graph_by};
pub use ordered_graph::OrderedGraph;
