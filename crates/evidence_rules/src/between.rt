/// The figures of the meetings of two names: of the traces that have both. Gaps are in nanoseconds;
/// of no meetings each figure is 0.
#[derive(Clone, Copy, Debug, PartialEq, Eq)]
pub struct Between {
    /// How many traces have both.
    pub traces: u32,
    /// How many of them refute that the first happens before the second.
    pub early: u32,
    /// How many of them refute that the second happens before the first.
    pub turned: u32,
    /// How many of them refute that the two are mutually exclusive.
    pub both: u32,
    /// The index of the first trace that refutes that the first happens before the second.
    pub first_early: u32,
    /// The index of the first trace that refutes that the two are mutually exclusive.
    pub first_both: u32,
    /// The least gap, from the end of the first to the start of the second.
    pub least: i128,
    /// The greatest such gap.
    pub greatest: i128,
    /// The least of the gaps between the two, in whichever order they come.
    pub nearest: i128,
}
