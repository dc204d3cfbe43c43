use weighted_dag::NumberList;

/// A chain of a graph.
#[derive(Drop)]
pub struct Chain {
    /// Its vertices in order.
    pub vertices: NumberList,
    /// The sum of their weights.
    pub length: u128,
}
