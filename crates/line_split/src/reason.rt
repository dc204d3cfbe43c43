ghost use Rattle.std.specs.Prelude.{◌≡◌, ◌≤◌, length};
ghost use Rattle.line_split.specs.Messages.{reason_text};

use event_lines::Why;

/// Why a line is bad.
#[derive(Clone, Copy, Debug, PartialEq, Eq)]
pub enum Reason {
    /// It is no good line of an input, for this reason.
    Line { why: Why },
    /// It is a control line. It has no request, so it belongs to no part, and what it commands
    /// depends on all lines before it.
    Control,
    /// It has more than 67,108,864 bytes.
    TooLong,
}

impl Reason {
    /// Gives the text in which the reason is printed.
    pub fn as_str(self) -> &'static str
        ensures told { result.now ≡ reason_text self }
        ensures short { length result.now ≤ 24 }
    {
        match self {
            Reason::Line { why } => why.as_str(),
            Reason::Control => "control line",
            Reason::TooLong => "line over 67108864 bytes",
        }
    }
}
