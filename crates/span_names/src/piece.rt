/// A piece of a thread of control behind a join.
#[derive(Clone, Copy, Debug, PartialEq, Eq)]
pub struct Piece {
    /// The number of what is joined, among all that the thread joins.
    pub number: u64,
    /// Where it is joined in several parts, and this is not the last one: the number of the part.
    pub gap: Option<u64>,
}
