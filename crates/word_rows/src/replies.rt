use crate::sheets::Sheet;

/// What the step machine replies to an event that has no fault.
#[derive(Debug, Drop)]
pub enum Reply {
    /// An entry was cleared: the value of its word before.
    Cleared { old: u64 },
    /// A word was loaded: its value.
    Loaded { value: u64 },
    /// Shares were split off: the new seat.
    Split { seat: u32 },
    /// Another seat was joined.
    Joined,
    /// The words were closed: their values.
    Closed { words: Sheet },
}
