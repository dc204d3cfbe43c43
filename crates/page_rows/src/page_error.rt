use crate::Why;
use std::alloc::{AllocError, AllocFailed};

/// Why a text was not read.
#[derive(Clone, Copy, Debug, PartialEq, Eq)]
pub enum PageError {
    /// An allocation failed.
    Memory,
    /// This line is the first bad one.
    Bad {
        /// Its number, from 1.
        line: u32,
        /// Why it is bad.
        why: Why,
    },
}

impl From<AllocError> for PageError {
    ghost use Rattle.std.specs.Prelude.{◌≡◌};
    ghost use Rattle.page_rows.specs.declared.page_error.PageError.TheVariants.{Memory};

    ghost from_gives = { λ _ e. e ≡ Memory };

    /// Gives the error of a call that is out of memory.
    fn from(_: AllocError) -> Self {
        PageError::Memory
    }
}

impl<T: Drop> From<AllocFailed<T>> for PageError {
    ghost use Rattle.std.specs.Prelude.{◌≡◌};
    ghost use Rattle.page_rows.specs.declared.page_error.PageError.TheVariants.{Memory};

    ghost from_gives = { λ _ e. e ≡ Memory };

    /// Gives the error of a call that is out of memory.
    fn from(_: AllocFailed<T>) -> Self {
        PageError::Memory
    }
}
