/// The least and the greatest offset of a machine.
#[derive(Clone, Copy, Debug, PartialEq, Eq)]
pub struct OffsetRange {
    /// The least one, in nanoseconds.
    pub least: i128,
    /// The greatest one, in nanoseconds.
    pub greatest: i128,
}

/// In how many traces what is told of a machine.
#[derive(Clone, Copy, Debug, PartialEq, Eq)]
pub struct MachineTally {
    /// Traces that tell of it.
    pub told: u64,
    /// Traces in which it has an offset.
    pub reached: u64,
    /// Traces in which it has none.
    pub unreached: u64,
    /// Traces in which its delays contradict each other.
    pub contradicted: u64,
    /// Its offsets, where it has one in any trace.
    pub range: Option<OffsetRange>,
}
