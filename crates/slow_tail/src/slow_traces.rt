/// Which traces are slow. Times are in nanoseconds.
#[derive(Drop)]
pub(crate) struct SlowTraces {
    /// Whether each trace is slow, in order.
    pub(crate) marks: Vec<bool>,
    /// How many are slow.
    pub(crate) count: u32,
    /// The least latency of the slow ones, 0 where there is none.
    pub(crate) floor: u64,
}
