/// A segment of each of two names in one trace. Gaps are in nanoseconds, and negative where the two
/// overlap or stand the other way round.
#[derive(Clone, Copy, Debug, PartialEq, Eq)]
pub struct Meeting {
    /// The index of the trace in its list, counted from 0.
    pub trace: u32,
    /// The trace's grace, in nanoseconds.
    pub grace: u64,
    /// From the end of the first segment to the start of the second.
    pub gap: i128,
    /// From the end of the second segment to the start of the first.
    pub back: i128,
}
