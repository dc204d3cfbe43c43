/// A link of a machine to one that is paired with it.
#[derive(Clone, Copy, Debug)]
pub(crate) struct Link {
    /// The number of the other machine.
    pub(crate) to: usize,
    /// The offset of the link's own machine relative to the other, in nanoseconds.
    pub(crate) offset: i64,
}
