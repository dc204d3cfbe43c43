ghost use Rattle.std.specs.Prelude.{◌≡◌, ◌≤◌, length};
ghost use Rattle.mystery_run.specs.Messages.{reason_text};

use event_lines::Why;

/// Why a line is bad.
#[derive(Clone, Copy, Debug, PartialEq, Eq)]
pub enum Reason {
    /// It is no good event line or control line, for this reason.
    Line { why: Why },
    /// It is outside the form of a file of steps.
    Step,
    /// It is outside the form of a certificate, whose line it is.
    Certificate,
    /// It is outside the form of a digest's text, in what is given.
    Summary,
}

impl Reason {
    /// Gives the text in which the reason is printed.
    pub fn as_str(self) -> &'static str
        ensures told { result.now ≡ reason_text self }
        ensures short { length result.now ≤ 20 }
    {
        match self {
            Reason::Line { why } => why.as_str(),
            Reason::Step => "bad step",
            Reason::Certificate => "bad certificate",
            Reason::Summary => "bad summary",
        }
    }
}
