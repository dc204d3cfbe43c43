use crate::Text;

/// An event of a request, as one machine logged it.
#[derive(Debug, Drop)]
pub struct Event {
    /// The number of its line, from 1 over the whole input.
    pub line: u32,
    /// The request that it belongs to.
    pub request: Text,
    /// The machine that logged it.
    pub machine: Text,
    /// The task: a thread of control of the request, perhaps over several machines.
    pub task: Text,
    /// The name of the event.
    pub event: Text,
    /// When it was logged, in nanoseconds since 1970 by the machine's own clock.
    pub time: u64,
    /// The message that was sent at this event.
    pub send: Option<Text>,
    /// The message that was received at this event.
    pub recv: Option<Text>,
}
