use crate::TraceFigures;
use trace_types::NamedSegmentList;

/// The critical paths and the figures of traces, in their order.
#[derive(Drop)]
pub struct PageFigures {
    /// The critical path of each trace.
    pub paths: Vec<NamedSegmentList>,
    /// The vertices of each trace's graph, with their slacks and gains.
    pub traces: Vec<TraceFigures>,
}
