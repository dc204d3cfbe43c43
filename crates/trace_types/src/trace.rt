ghost use Rattle.trace_types.specs.SegmentLists.{NamesDiffer, TasksStandTogether, JoinInTasks};
ghost use Rattle.trace_types.specs.Segments.{name_of, task_of, start_of, end_of};

use crate::{SegmentList, Text};

/// The trace of one request, cut into its segments by one clock.
#[derive(Debug, Drop)]
pub struct Trace {
    /// The request of every event.
    pub request: Text,
    /// The day of its first event, in days of 86,400 seconds since 1970.
    pub day: u32,
    /// The greatest adjusted time of its events less the least, in nanoseconds.
    pub latency: u64,
    /// The segments: task after task, and within a task by time.
    pub segments: SegmentList,
    ghost names_differ: { NamesDiffer name_of segments },
    ghost together: { TasksStandTogether task_of segments },
    ghost joined: { JoinInTasks task_of start_of end_of segments },
}
