/// The figures of the elements that two tasks share in traces.
#[derive(Clone, Copy, Debug, PartialEq, Eq)]
pub struct Sharing {
    /// In how many traces the two share an element.
    pub traces: u32,
    /// How many elements they share, each counted once a trace.
    pub elements: u128,
    /// How many traces refute that elements pass from the first to the second.
    pub refuted: u32,
    /// The index of the first trace that does; where none does, the number of traces.
    pub first_refuted: u32,
}
