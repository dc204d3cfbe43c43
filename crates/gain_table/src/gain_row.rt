/// What the segments with one name gain over traces, in nanoseconds.
#[derive(Clone, Copy, Debug, PartialEq, Eq)]
pub struct GainRow {
    /// The number of the name in the catalogue.
    pub name: u32,
    /// How much shorter the critical paths are together if they take no time.
    pub none: u128,
    /// The same if they take half, rounded down for each segment.
    pub half: u128,
}
