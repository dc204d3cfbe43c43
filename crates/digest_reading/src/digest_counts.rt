/// How many traces, days, tasks and names a header says there are.
#[derive(Clone, Copy, Debug)]
pub struct DigestCounts {
    /// How many traces.
    pub traces: u64,
    /// How many days.
    pub days: u32,
    /// How many tasks.
    pub tasks: u32,
    /// How many names.
    pub names: u32,
}
