/// A watch number: what a worker saw refuted just after it had offered so many of its traces.
#[derive(Clone, Copy, Debug, PartialEq, Eq)]
pub struct WatchLine {
    /// The worker, counted from 0.
    pub worker: u32,
    /// How many of its traces the worker had offered.
    pub done: u32,
    /// The number of relations that its reading showed as refuted.
    pub refuted: u32,
}
