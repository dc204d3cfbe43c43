ghost use Rattle.std.specs.Prelude.{◌≡◌};
ghost use Rattle.inspect_run.specs.Messages.{status_of};

use std::alloc::AllocError;

/// How a run ended.
#[derive(Clone, Copy, Debug, PartialEq, Eq)]
pub enum Outcome {
    /// Every file was read to its end, and the rows were written.
    Done,
    /// An allocation failed.
    Memory,
    /// The arguments are outside the grammar.
    Arguments,
    /// The file with this index, from 0, could not be opened or read.
    File { index: u32 },
    /// The rows could not be written to their end.
    Write,
    /// The files have more than 67,108,864 bytes together.
    Size,
}

impl Outcome {
    /// Returns the exit status, from 0 to 6.
    pub(crate) fn status(self) -> u8
        ensures { result ≡ status_of self }
    {
        match self {
            Outcome::Done => 0,
            Outcome::Memory => 1,
            Outcome::Arguments => 2,
            Outcome::File { .. } => 4,
            Outcome::Write => 5,
            Outcome::Size => 6,
        }
    }
}

impl From<AllocError> for Outcome {
    ghost use Rattle.inspect_run.specs.declared.outcome.Outcome.TheVariants.{Memory};

    ghost from_gives = { λ _ e. e ≡ Memory };

    fn from(_: AllocError) -> Self {
        Outcome::Memory
    }
}
