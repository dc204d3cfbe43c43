/// How long a trace's critical path is, and how long it would be, in nanoseconds.
#[derive(Clone, Copy, Debug, PartialEq, Eq)]
pub struct Forecast {
    /// The longest length now.
    pub before: u128,
    /// The longest length with the changes.
    pub after: u128,
}
