/// What the messages of a trace tell of the clock of a machine that is not the reference.
#[derive(Clone, Copy, Debug, PartialEq, Eq)]
pub enum Clock {
    /// No pairings lead to it: it has no offset.
    Unreachable,
    /// Pairings lead to it.
    Reached {
        /// Its offset from the reference, in nanoseconds.
        offset: i128,
        /// The least delay from its parent to it and the least delay back, together, in
        /// nanoseconds; below 0 they contradict each other.
        round_trip: i128,
    },
}

/// The clock of a machine of a trace.
#[derive(Clone, Copy, Debug, PartialEq, Eq)]
pub struct MachineClock {
    /// The index of the machine's first event.
    pub first: usize,
    /// What is told of it.
    pub clock: Clock,
}
