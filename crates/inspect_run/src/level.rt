ghost use Rattle.std.specs.Prelude.{◌≡◌};
ghost use Rattle.inspect_run.specs.Rows.{level_text};

/// How good the input is in one respect.
#[derive(Clone, Copy, Debug, PartialEq, Eq)]
pub enum Level {
    /// As it should be.
    Fine,
    /// Worth a look.
    Note,
    /// What the other commands say of this input may mislead.
    Warn,
}

impl Level {
    /// Gives the text in which it is printed.
    pub(crate) fn as_str(self) -> &'static str
        ensures { result.now ≡ level_text self }
    {
        match self {
            Level::Fine => "ok",
            Level::Note => "note",
            Level::Warn => "warn",
        }
    }
}
