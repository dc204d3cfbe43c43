use path_gains::Gain;
use weighted_dag::NumberList;

/// The vertices of a trace's graph, each with its slack and its gain, in nanoseconds.
#[derive(Drop)]
pub struct TraceFigures {
    /// The index of each vertex's segment in the trace.
    pub order: NumberList,
    /// The slack of each vertex, by its number.
    pub slacks: Vec<u128>,
    /// What each vertex gains, by its number.
    pub gains: Vec<Gain>,
}
