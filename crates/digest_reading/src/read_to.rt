/// What was read, the number of the next line, and the bytes from there on.
#[derive(Debug, Drop)]
pub(crate) struct ReadTo<'b, T> {
    /// What was read.
    pub(crate) value: T,
    /// The number of the next line.
    pub(crate) number: u32,
    /// The bytes that are left.
    pub(crate) left: &'b [u8],
}
