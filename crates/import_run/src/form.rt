use span_files::SpanForm;

/// What the input is.
#[derive(Clone, Copy, Debug, PartialEq, Eq)]
pub enum Form {
    /// Event lines, which are rewritten so that no segment is a wait.
    Events,
    /// Spans, which become event lines.
    Spans { form: SpanForm },
}
