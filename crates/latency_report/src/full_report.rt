use crate::SegmentRowList;
use trace_rules::Figures;

/// The report over the kept traces. Times are in nanoseconds.
#[derive(Debug, Drop)]
pub struct FullReport {
    /// How many traces there are.
    pub traces: u32,
    /// How long their critical paths are together.
    pub critical: u128,
    /// The figures of their latencies.
    pub latency: Figures,
    /// A row for each name of their segments, in name order.
    pub rows: SegmentRowList,
}
