/// Elements of a list that are equal.
#[derive(Clone, Copy, Debug, PartialEq, Eq)]
pub struct Group {
    /// The index of the first, counted from 0.
    pub first: usize,
    /// How many there are.
    pub count: usize,
}
