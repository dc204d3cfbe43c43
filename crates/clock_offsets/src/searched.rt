/// What a search finds, by the numbers of machines.
#[derive(Drop)]
pub(crate) struct Searched {
    /// The depth of each machine, where pairings lead to it.
    pub(crate) depths: Vec<Option<usize>>,
    /// The offset of each machine, in nanoseconds.
    pub(crate) offsets: Vec<i128>,
}
