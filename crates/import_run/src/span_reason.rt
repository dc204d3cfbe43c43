ghost use Rattle.std.specs.Prelude.{◌≡◌, ◌++◌};
ghost use Rattle.import_run.specs.Messages.{reason_text};

use span_text::Why;

/// Why a span is refused.
#[derive(Clone, Copy, Debug, PartialEq, Eq)]
pub enum SpanReason {
    /// It could not be read.
    Unreadable { why: Why },
    /// A span before it in its trace has its id and says something else.
    RepeatedId,
    /// Its parents lead into a circle.
    Circle,
}

impl SpanReason {
    /// Returns the text in which the reason is printed, in two parts.
    pub fn parts(self) -> (&'static str, &'static str)
        ensures { result.0.now ++ result.1.now ≡ reason_text self }
    {
        match self {
            SpanReason::Unreadable { why } => why.parts(),
            SpanReason::RepeatedId => ("span id twice in a trace", ""),
            SpanReason::Circle => ("parents form a circle", ""),
        }
    }
}
