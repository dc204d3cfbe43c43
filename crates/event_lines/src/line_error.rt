use crate::Why;
use std::alloc::{AllocError, AllocFailed};

/// Why the lines of an input were not read.
#[derive(Clone, Copy, Debug, PartialEq, Eq)]
pub enum LineError {
    /// Out of memory.
    Memory,
    /// The input has a bad line: the first one.
    Bad {
        /// Its number, from 1 over the whole input.
        line: u32,
        /// The first reason that holds of it.
        why: Why,
    },
}

impl From<AllocError> for LineError {
    ghost use Rattle.std.specs.Prelude.{◌≡◌};
    ghost use Rattle.event_lines.specs.declared.line_error.LineError.TheVariants.{Memory};

    ghost from_gives = { λ _ e. e ≡ Memory };

    /// Gives the error of a call that is out of memory.
    fn from(_: AllocError) -> Self {
        LineError::Memory
    }
}

impl<T: Drop> From<AllocFailed<T>> for LineError {
    ghost use Rattle.std.specs.Prelude.{◌≡◌};
    ghost use Rattle.event_lines.specs.declared.line_error.LineError.TheVariants.{Memory};

    ghost from_gives = { λ _ e. e ≡ Memory };

    /// Gives the error of a call that is out of memory.
    fn from(_: AllocFailed<T>) -> Self {
        LineError::Memory
    }
}
