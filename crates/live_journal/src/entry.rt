use trace_types::NamedTraceList;

/// What was done to a book of days. Days are counted in days of 86,400 seconds since 1970.
#[derive(Drop)]
pub enum Entry {
    /// The traces of a sheet were added to their day.
    Rolled {
        /// The day.
        day: u32,
        /// The traces, in the order in which they were taken.
        traces: NamedTraceList,
    },
    /// A day was dropped with all its traces.
    Dropped {
        /// The day.
        day: u32,
    },
    /// All days but so many of the newest were dropped.
    Kept {
        /// How many days were kept, or more than there were.
        days: u32,
    },
}
