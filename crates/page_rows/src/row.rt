use crate::{
    BarRow, BetweenRow, BoxRow, BucketRow, GainRow, LatencyRow, LoadRow, PipeRow, RankRow,
    RefusedRow, ReportHead, RoomRow, SegmentRow, TailHead, TailRow,
};

/// A row of a page.
#[derive(Debug, Drop)]
pub enum Row {
    /// A trace that was refused.
    Refused(RefusedRow),
    /// The head of the report.
    Report(ReportHead),
    /// The figures of the latencies.
    Latency(LatencyRow),
    /// The figures of a name.
    Segment(SegmentRow),
    /// The head of the report on the slowest loads.
    Tail(TailHead),
    /// The figures of a name there.
    TailSegment(TailRow),
    /// The head of the ranks.
    Ranks,
    /// The loads of a rank.
    Bucket(BucketRow),
    /// The time of a name, rank by rank.
    Rank(RankRow),
    /// The head of the gains.
    Gains,
    /// The gain of a name.
    Gain(GainRow),
    /// The head of the slacks.
    Rooms,
    /// The slack of a name.
    Room(RoomRow),
    /// The head of the loads that are shown.
    Loads,
    /// A load that is shown.
    Load(LoadRow),
    /// A segment of the load before it.
    Bar(BarRow),
    /// A box of the model.
    Box(BoxRow),
    /// The relations between two boxes.
    Between(BetweenRow),
    /// A pipeline of two tasks.
    Pipe(PipeRow),
}
