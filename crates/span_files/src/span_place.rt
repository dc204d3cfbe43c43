/// Where a span stands in an input.
#[derive(Clone, Copy, Debug, PartialEq, Eq)]
pub struct SpanPlace {
    /// The index of its file, from 0.
    pub file: u32,
    /// The number of its line in the file, or its own number there, from 1.
    pub place: usize,
}
