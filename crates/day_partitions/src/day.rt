use trace_types::NamedTrace;

/// A kept day, its leaf in the tree, and its traces in the order in which they were taken.
#[derive(Drop)]
pub(crate) struct Day {
    /// The day, in days of 86,400 seconds since 1970.
    pub(crate) day: u32,
    /// The index of its leaf, from 0 to 63.
    pub(crate) slot: usize,
    /// Its traces.
    pub(crate) traces: Vec<NamedTrace>,
}
