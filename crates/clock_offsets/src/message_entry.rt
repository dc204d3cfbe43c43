/// A message with its place, as a table holds it.
#[derive(Clone, Copy)]
pub(crate) struct MessageEntry<'a> {
    /// The bytes of the message.
    pub(crate) message: &'a [u8],
    /// The place where the message came first.
    pub(crate) place: usize,
    /// The digest of the message.
    pub(crate) digest: u64,
    /// One more than the index of the next older entry of the same chain, or 0.
    pub(crate) older: usize,
}
