use crate::Why;
use std::alloc::{AllocError, AllocFailed};

/// Why a part of an input was not read.
#[derive(Clone, Copy, Debug, PartialEq, Eq)]
pub enum ReadError {
    /// Out of memory.
    Memory,
    /// It is bad, and this is the first reason.
    Refused(Why),
}

impl From<AllocError> for ReadError {
    ghost use Rattle.std.specs.Prelude.{◌≡◌};
    ghost use Rattle.span_text.specs.declared.read_error.ReadError.TheVariants.{Memory};

    ghost from_gives = { λ _ e. e ≡ Memory };

    /// Gives the error of a call that is out of memory.
    fn from(_: AllocError) -> Self {
        ReadError::Memory
    }
}

impl<T: Drop> From<AllocFailed<T>> for ReadError {
    ghost use Rattle.std.specs.Prelude.{◌≡◌};
    ghost use Rattle.span_text.specs.declared.read_error.ReadError.TheVariants.{Memory};

    ghost from_gives = { λ _ e. e ≡ Memory };

    /// Gives the error of a call that is out of memory.
    fn from(_: AllocFailed<T>) -> Self {
        ReadError::Memory
    }
}
