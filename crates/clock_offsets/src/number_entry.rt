/// A number of a group with its place, as a table holds it.
#[derive(Clone, Copy)]
pub(crate) struct NumberEntry {
    /// The group.
    pub(crate) group: usize,
    /// The number.
    pub(crate) number: u32,
    /// The place where the number came first.
    pub(crate) place: usize,
    /// One more than the index of the next older entry of the same chain, or 0.
    pub(crate) older: usize,
}
