use clock_offsets::Clock;

/// What a trace tells of the clock of a machine.
#[derive(Clone, Copy, Debug, PartialEq, Eq)]
pub struct NumberedClock {
    /// The number of the machine in the batch's texts.
    pub machine: u32,
    /// What is told of it.
    pub clock: Clock,
}
