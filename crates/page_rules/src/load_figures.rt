/// The figures of a load's graph.
#[derive(Clone, Copy, Debug, PartialEq, Eq)]
pub struct LoadFigures {
    /// How long the critical path is, in nanoseconds.
    pub length: u128,
    /// How many vertices the graph has, one for each segment.
    pub vertices: u32,
    /// How many of them are on the critical path.
    pub steps: u32,
    /// How many edges its transitive reduction has.
    pub edges: u32,
}
