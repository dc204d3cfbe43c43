use crate::{ClockCounts, MessageCounts, Times, Verdict};

/// What a trace tells of the quality of the input.
#[derive(Clone, Copy, Debug, PartialEq, Eq)]
pub struct TraceFacts {
    /// When its events were logged.
    pub times: Times,
    /// Whether it is refused, and its segments.
    pub verdict: Verdict,
    /// Its messages.
    pub messages: MessageCounts,
    /// The clocks of its machines.
    pub clocks: ClockCounts,
}
