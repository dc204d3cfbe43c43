use weighted_dag::{Dag, NumberList};

/// The graph of a trace.
#[derive(Drop)]
pub struct OrderedGraph {
    /// The index of each vertex's segment in the trace.
    pub order: NumberList,
    /// The weights, in nanoseconds, and the edges.
    pub dag: Dag,
}
