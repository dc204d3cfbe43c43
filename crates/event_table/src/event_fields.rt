/// What an event line says of its event; the number of the line stands apart.
#[derive(Drop)]
pub struct EventFields<'a> {
    /// The request that it belongs to.
    pub request: &'a str,
    /// The machine that logged it.
    pub machine: &'a str,
    /// The task.
    pub task: &'a str,
    /// The name of the event.
    pub event: &'a str,
    /// When it was logged, in nanoseconds since 1970 by the machine's own clock.
    pub time: u64,
    /// The message that was sent at this event.
    pub send: Option<&'a str>,
    /// The message that was received at this event.
    pub recv: Option<&'a str>,
}
