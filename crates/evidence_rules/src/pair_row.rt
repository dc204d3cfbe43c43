/// Two names or two tasks, by their places in a list, with their figures.
#[derive(Clone, Copy, Debug, PartialEq, Eq)]
pub struct PairRow<F> {
    /// The place of the first.
    pub first: u32,
    /// The place of the second.
    pub second: u32,
    /// The figures of the two.
    pub figures: F,
}
