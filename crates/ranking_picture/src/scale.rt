/// What a table of times is measured by.
#[derive(Clone, Copy, Debug)]
pub struct Scale {
    /// All latency.
    pub all: u128,
    /// How many loads there are.
    pub loads: u128,
    /// The time that fills the width.
    pub width: u128,
}
