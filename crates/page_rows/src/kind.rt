/// What a row is.
#[derive(Clone, Copy, Debug)]
pub enum Kind {
    /// A trace that was refused.
    Refused,
    /// The head of the report.
    Report,
    /// The figures of the latencies.
    Latency,
    /// The figures of a name.
    Segment,
    /// The head of the report on the slowest loads.
    Tail,
    /// The figures of a name there.
    TailSegment,
    /// The head of the ranks.
    Ranks,
    /// The loads of a rank.
    Bucket,
    /// The time of a name, rank by rank.
    Rank,
    /// The head of the gains.
    Gains,
    /// The gain of a name.
    Gain,
    /// The head of the slacks.
    Rooms,
    /// The slack of a name.
    Room,
    /// The head of the loads that are shown.
    Loads,
    /// A load that is shown.
    Load,
    /// A segment of the load before it.
    Bar,
    /// A box of one name.
    NameBox,
    /// A box of a task.
    TaskBox,
    /// The relations between two boxes that never overlap.
    Between,
    /// Those between two boxes of which names overlap.
    Overlap,
    /// A pipeline of two tasks.
    Pipe,
}
