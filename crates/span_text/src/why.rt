ghost use Rattle.std.specs.Prelude.{◌≡◌, ◌++◌};
ghost use Rattle.span_text.specs.Reasons.{why_text};

use crate::Member;

/// Why a span, or the JSON that it stands in, is bad. Where several reasons hold, the first one
/// that the reading meets counts.
#[derive(Clone, Copy, Debug, PartialEq, Eq)]
pub enum Why {
    /// The bytes are no JSON value in UTF-8.
    NotJson,
    /// The JSON value is no array.
    NotArray,
    /// A required member is absent.
    Missing(Member),
    /// The value of a member is of the wrong kind.
    Bad(Member),
    /// The span ends before it starts.
    EndBeforeStart,
    /// The span ends after the latest time.
    TimeOutOfRange,
}

impl Why {
    /// Gives the text in which the reason is printed, in two parts.
    pub fn parts(self) -> (&'static str, &'static str)
        ensures { result.0.now ++ result.1.now ≡ why_text self }
    {
        match self {
            Why::NotJson => ("not JSON", ""),
            Why::NotArray => ("not an array", ""),
            Why::Missing(member) => ("missing ", member.name()),
            Why::Bad(member) => ("bad ", member.name()),
            Why::EndBeforeStart => ("end before start", ""),
            Why::TimeOutOfRange => ("time out of range", ""),
        }
    }
}
