ghost use Rattle.std.specs.Prelude.{◌≡◌};
ghost use Rattle.view_run.specs.Messages.{status_of};

use page_rows::Why;

/// How a run ended.
#[derive(Clone, Copy, Debug, PartialEq, Eq)]
pub enum Outcome {
    /// The page was written.
    Done,
    /// An allocation failed.
    Memory,
    /// The arguments are outside the grammar.
    Arguments,
    /// This line, counted from 1, is the first bad one.
    BadLine { line: u32, why: Why },
    /// The file could not be opened or read.
    File,
    /// The page could not be written to its end.
    Write,
    /// The file has more than 67,108,864 bytes.
    Size,
}

impl Outcome {
    /// Returns the exit status, from 0 to 6.
    pub(crate) fn status(self) -> u8
        ensures { result ≡ status_of self }
    {
        match self {
            Outcome::Done => 0,
            Outcome::Memory => 1,
            Outcome::Arguments => 2,
            Outcome::BadLine { .. } => 3,
            Outcome::File => 4,
            Outcome::Write => 5,
            Outcome::Size => 6,
        }
    }
}
