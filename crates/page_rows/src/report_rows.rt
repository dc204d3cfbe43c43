use crate::Amount;
use trace_types::{NameText, Text};

/// A trace that was refused.
#[derive(Debug, Drop)]
pub struct RefusedRow {
    /// Its request.
    pub request: Text,
    /// Why it was refused.
    pub reason: Text,
    /// The line of its first event.
    pub line: Amount,
}

/// The head of the report.
#[derive(Debug, Drop)]
pub struct ReportHead {
    /// How many loads are kept.
    pub traces: Amount,
    /// How long their critical paths are together.
    pub critical: Amount,
}

/// The figures of the loads' latencies.
#[derive(Debug, Drop)]
pub struct LatencyRow {
    /// How many loads there are.
    pub count: Amount,
    /// All latencies together.
    pub sum: Amount,
    /// The median latency.
    pub median: Amount,
    /// The greatest latency.
    pub greatest: Amount,
}

/// The figures of the segments with one name.
#[derive(Debug, Drop)]
pub struct SegmentRow {
    /// The name.
    pub name: NameText,
    /// How many segments have it.
    pub count: Amount,
    /// How long they last together.
    pub sum: Amount,
    /// The median of their durations.
    pub median: Amount,
    /// The greatest of them.
    pub greatest: Amount,
    /// On how many critical paths there is one.
    pub on_path: Amount,
    /// How long they last there together.
    pub on_path_sum: Amount,
}
