/// What a digest has too many of.
#[derive(Clone, Copy, Debug, PartialEq, Eq)]
pub enum DigestLimit {
    /// More than 512 names.
    Names {
        /// How many names it has.
        count: u64,
    },
    /// More than 64 tasks.
    Tasks {
        /// How many tasks it has.
        count: u64,
    },
    /// 2^64 traces or more.
    Traces,
}
