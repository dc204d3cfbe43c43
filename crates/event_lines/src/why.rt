ghost use Rattle.std.specs.Prelude.{◌≡◌, ◌≤◌, length};
ghost use Rattle.event_lines.specs.Reasons.{why_text};

/// Why a line is bad. Where several reasons hold, the line has the first of this list.
#[derive(Clone, Copy, Debug, PartialEq, Eq)]
pub enum Why {
    /// The line is no JSON value, or none that is an object.
    NotJson,
    /// A required member is absent.
    Missing,
    /// A member that must be a text or a whole number is neither.
    WrongKind,
    /// A number is below or above its range.
    OutOfRange,
    /// A text is empty, longer than 64 bytes, or has a control character.
    BadText,
    /// A control line names no command.
    UnknownCommand,
}

impl Why {
    /// Gives the text in which the reason is printed.
    pub fn as_str(self) -> &'static str
        ensures told { result.now ≡ why_text self }
        ensures short { length result.now ≤ 20 }
    {
        match self {
            Why::NotJson => "not a JSON object",
            Why::Missing => "missing member",
            Why::WrongKind => "wrong kind",
            Why::OutOfRange => "out of range",
            Why::BadText => "bad text",
            Why::UnknownCommand => "unknown command",
        }
    }
}
