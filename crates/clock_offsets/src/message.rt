/// A message between two machines, by their numbers.
#[derive(Clone, Copy)]
pub(crate) struct Message {
    /// The machine that sent it.
    pub(crate) from: usize,
    /// The machine that received it.
    pub(crate) to: usize,
    /// Receive time minus send time, each by its own machine's clock, in nanoseconds; may be
    /// negative.
    pub(crate) delay: i64,
}
