use crate::TailRowList;

/// The report on the slowest of the kept traces. Times are in nanoseconds.
#[derive(Debug, Drop)]
pub struct SlowReport {
    /// How many traces there are.
    pub traces: u32,
    /// How many of them are slow: one in twenty, rounded up.
    pub slow: u32,
    /// The least latency of the slow ones, 0 where there is none.
    pub floor: u64,
    /// A row for each name of the traces' segments, in name order.
    pub rows: TailRowList,
}
