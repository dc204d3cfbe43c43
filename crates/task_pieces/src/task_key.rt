/// An event as its task sees it. Keys are ordered by task, and within a task by time and index.
#[derive(Clone, Copy, Debug, PartialEq, Eq, PartialOrd, Ord)]
pub struct TaskKey<'a> {
    /// The number of the batch of the event.
    pub batch: u64,
    /// Its request.
    pub request: &'a str,
    /// Its task.
    pub task: &'a str,
    /// When it was logged, in nanoseconds since 1970 by the machine's own clock.
    pub time: u64,
    /// Its index among all events, from 0.
    pub index: u32,
    /// Whether it sends a message.
    pub sends: bool,
    /// Whether it receives one.
    pub receives: bool,
}
