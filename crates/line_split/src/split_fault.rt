ghost use Rattle.std.specs.Prelude.{◌≡◌};
ghost use Rattle.line_split.specs.Messages.{status_of};

use crate::Reason;
use mystery_io::Failed;
use output_files::CreateFault;
use std::alloc::{AllocError, AllocFailed};

/// Why a run is not done.
#[derive(Clone, Copy, Debug, PartialEq, Eq)]
pub enum SplitFault {
    /// The arguments are outside the grammar.
    Arguments,
    /// An allocation failed.
    Memory,
    /// The first bad line of all files.
    BadLine {
        /// The index of its file among the file arguments, from 0.
        file: usize,
        /// Its number there, from 1, as far as 64 bits count.
        line: u64,
        /// Why it is bad.
        why: Reason,
    },
    /// The file argument with this index, from 0, could not be opened or read.
    File {
        index: usize,
    },
    /// A file could not be made or written.
    Write,
}

impl From<AllocError> for SplitFault {
    ghost use Rattle.std.specs.Prelude.{◌≡◌};
    ghost use Rattle.line_split.specs.declared.split_fault.SplitFault.TheVariants.{Memory};

    ghost from_gives = { λ _ e. e ≡ Memory };

    fn from(_: AllocError) -> Self {
        SplitFault::Memory
    }
}

impl<T: Drop> From<AllocFailed<T>> for SplitFault {
    ghost use Rattle.std.specs.Prelude.{◌≡◌};
    ghost use Rattle.line_split.specs.declared.split_fault.SplitFault.TheVariants.{Memory};

    ghost from_gives = { λ _ e. e ≡ Memory };

    fn from(_: AllocFailed<T>) -> Self {
        SplitFault::Memory
    }
}

/// Returns the exit status, from 0 to 5.
pub(crate) fn status_of(outcome: Result<(), SplitFault>) -> u8
    ensures { result ≡ status_of outcome }
{
    match outcome {
        Ok(()) => 0,
        Err(SplitFault::Memory) => 1,
        Err(SplitFault::Arguments) => 2,
        Err(SplitFault::BadLine { .. }) => 3,
        Err(SplitFault::File { .. }) => 4,
        Err(SplitFault::Write) => 5,
    }
}
