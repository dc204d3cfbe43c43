use event_lines::{LineParts, Why};

/// What was read of the files of an input.
#[derive(Debug, Drop)]
pub(crate) enum Input {
    /// Its bytes.
    Bytes { bytes: Vec<u8> },
    /// Its lines: all are good.
    Lines { lines: LineParts },
    /// The first bad line, and why it is bad.
    Bad { line: u32, why: Why },
}

impl Input {
    ghost use Rattle.std.specs.Prelude.{◌≡◌};
    ghost use Rattle.mystery_run.specs.inner.Inputs.{bytes_kept};

    /// Lends the bytes; none where lines were read.
    pub(crate) fn bytes(&self) -> &[u8]
        ensures { result.now ≡ bytes_kept self.now }
    {
        match self {
            Input::Bytes { bytes } => bytes,
            Input::Lines { .. } => &[],
            Input::Bad { .. } => &[],
        }
    }
}
