/// A limit that an add passes: after it there would be more than are allowed.
#[derive(Clone, Copy, Debug, PartialEq, Eq)]
pub enum Limit {
    /// More than 512 segment names.
    Names {
        /// How many names there are after the first trace with which they are too many.
        count: u32,
    },
    /// At most 512 segment names, and more than 64 tasks of segments.
    Tasks {
        /// How many tasks there are after the first trace with which they are too many.
        count: u32,
    },
    /// More than 64 days of kept traces.
    Days {
        /// How many days there would be.
        count: u32,
    },
    /// 2^64 traces or more, those of the given digest and the kept ones together.
    Traces,
}
