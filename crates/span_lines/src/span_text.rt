/// The text of the event lines of spans.
#[derive(Debug, Drop)]
pub struct SpanText {
    /// The lines, each ended by a line feed.
    pub text: Vec<u8>,
    /// How many spans have a parent that is not among the spans of their trace.
    pub missing: usize,
    /// How many requests have more than 4,096 lines.
    pub long: usize,
}
