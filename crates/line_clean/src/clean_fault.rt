ghost use Rattle.std.specs.Prelude.{◌≡◌};
ghost use Rattle.line_clean.specs.Messages.{status_of};

use mystery_io::Failed;
use std::alloc::{AllocError, AllocFailed};

/// Why a run is not done.
#[derive(Clone, Copy, Debug, PartialEq, Eq)]
pub enum CleanFault {
    /// The arguments are outside the grammar.
    Arguments,
    /// An allocation failed.
    Memory,
    /// The file argument with this index, from 0, could not be opened or read.
    File { index: usize },
    /// The good lines could not be written to their end.
    Write,
}

impl From<AllocError> for CleanFault {
    ghost use Rattle.std.specs.Prelude.{◌≡◌};
    ghost use Rattle.line_clean.specs.declared.clean_fault.CleanFault.TheVariants.{Memory};

    ghost from_gives = { λ _ e. e ≡ Memory };

    fn from(_: AllocError) -> Self {
        CleanFault::Memory
    }
}

impl<T: Drop> From<AllocFailed<T>> for CleanFault {
    ghost use Rattle.std.specs.Prelude.{◌≡◌};
    ghost use Rattle.line_clean.specs.declared.clean_fault.CleanFault.TheVariants.{Memory};

    ghost from_gives = { λ _ e. e ≡ Memory };

    fn from(_: AllocFailed<T>) -> Self {
        CleanFault::Memory
    }
}

impl From<Failed> for CleanFault {
    ghost use Rattle.std.specs.Prelude.{◌≡◌};
    ghost use Rattle.line_clean.specs.declared.clean_fault.CleanFault.TheVariants.{Write};

    ghost from_gives = { λ _ e. e ≡ Write };

    fn from(_: Failed) -> Self {
        CleanFault::Write
    }
}

/// Returns the exit status, from 0 to 5.
pub(crate) fn status_of(outcome: Result<(), CleanFault>) -> u8
    ensures { result ≡ status_of outcome }
{
    match outcome {
        Ok(()) => 0,
        Err(CleanFault::Memory) => 1,
        Err(CleanFault::Arguments) => 2,
        Err(CleanFault::File { .. }) => 4,
        Err(CleanFault::Write) => 5,
    }
}
