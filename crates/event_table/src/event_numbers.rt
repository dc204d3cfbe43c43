/// The place that stands for no message.
pub(crate) const NO_MESSAGE: u32 = 4_294_967_295;

/// An event whose texts are numbers of tables and whose messages are places in lists.
#[derive(Clone, Copy)]
pub struct EventNumbers {
    /// When it was logged, in nanoseconds since 1970 by the machine's own clock.
    pub(crate) time: u64,
    /// The number of its line.
    pub(crate) line: u32,
    /// The number of its request.
    pub(crate) request: u32,
    /// The number of its machine.
    pub(crate) machine: u32,
    /// The number of its task.
    pub(crate) task: u32,
    /// The number of its name.
    pub(crate) event: u32,
    /// The place of the message that was sent, or `NO_MESSAGE`.
    pub(crate) send: u32,
    /// The place of the message that was received, or `NO_MESSAGE`.
    pub(crate) recv: u32,
}

/// What stands in the place of an event that is not there yet.
pub(crate) const NO_EVENT: EventNumbers = EventNumbers {
    time: 0,
    line: 0,
    request: 0,
    machine: 0,
    task: 0,
    event: 0,
    send: NO_MESSAGE,
    recv: NO_MESSAGE,
};
