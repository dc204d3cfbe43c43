ghost use Rattle.std.specs.Prelude.{◌≤ℤ◌};

use crate::Text;

/// The time between two consecutive events of one task in one request. Its name is the triple of
/// task, start event and end event.
#[derive(Debug, Drop)]
pub struct Segment {
    /// The task of both events.
    pub task: Text,
    /// The name of the event that it starts with.
    pub start_event: Text,
    /// The name of the event that it ends with.
    pub end_event: Text,
    /// The adjusted time of its start event, in nanoseconds since 1970 by the reference's clock.
    pub start: i64,
    /// The adjusted time of its end event, in the same nanoseconds.
    pub end: i64,
    /// The data element that the task worked on, where its start event names one.
    pub element: Option<Text>,
    ghost ordered: { start ≤ℤ end },
}
