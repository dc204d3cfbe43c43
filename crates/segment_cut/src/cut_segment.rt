ghost use Rattle.std.specs.Prelude.{◌≤ℤ◌};

/// A segment of a trace whose texts are numbers of a batch's tables.
#[derive(Clone, Copy, Debug)]
pub struct CutSegment {
    /// The number of the task of both events, among the tasks.
    pub task: u32,
    /// The number of the name of the event that it starts with, among the names of events.
    pub start_event: u32,
    /// The number of the name of the event that it ends with, among the names of events.
    pub end_event: u32,
    /// The adjusted time of its start event, in nanoseconds since 1970 by the reference's clock.
    pub start: i64,
    /// The adjusted time of its end event, in the same nanoseconds.
    pub end: i64,
    ghost ordered: { start ≤ℤ end },
}
