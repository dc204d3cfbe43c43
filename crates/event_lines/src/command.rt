/// The command of a control line. Each number is at most 1,000,000.
#[derive(Clone, Copy, Debug, PartialEq, Eq)]
pub enum Command {
    /// Cut the events since the last batch into traces, and keep these.
    Add,
    /// Drop the traces of a day.
    Drop {
        /// The day, in days since 1970.
        day: u32,
    },
    /// Keep the traces of the newest days alone.
    Keep {
        /// The number of days.
        days: u32,
    },
    /// Print counts while traces are added.
    Watch {
        /// The number of traces from one print to the next.
        every: u32,
    },
    /// Judge the traces of later adds with a grace.
    Grace {
        /// The grace, in microseconds.
        micros: u32,
    },
    /// Print the model.
    Model,
    /// Print the critical paths.
    Paths,
    /// Print the slack of each segment.
    Slack,
    /// Print the report of latencies.
    Report,
    /// Print the graph of each trace.
    Graph,
    /// Print the digest of the kept traces.
    Summarize,
}
