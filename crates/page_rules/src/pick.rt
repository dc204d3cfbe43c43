/// Which of the traces, by latency, is shown as a load.
#[derive(Clone, Copy, Debug, PartialEq, Eq)]
pub enum Pick {
    /// The one in the middle, of two the quicker.
    Median,
    /// The quickest of the slow ones.
    Slow,
    /// The slowest of all.
    Slowest,
}
