/// The figures of a list of numbers. Of an empty list each is 0.
#[derive(Clone, Copy, Debug, PartialEq, Eq)]
pub struct Figures {
    /// How many numbers there are.
    pub count: u32,
    /// Their sum.
    pub sum: u128,
    /// The number in the middle, of two the lower.
    pub median: u64,
    /// The greatest number.
    pub greatest: u64,
}
