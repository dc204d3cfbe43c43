use std::alloc::{AllocError, AllocFailed};

/// Why digests were not read.
#[derive(Clone, Copy, Debug, PartialEq, Eq)]
pub enum DigestFault {
    /// Out of memory.
    Memory,
    /// There is a line that is outside the form: the first one.
    Bad {
        /// Its number, from 1 over all texts.
        line: u32,
    },
}

impl From<AllocError> for DigestFault {
    ghost use Rattle.digest_reading.specs.Readings.{IsOutOfMemory};

    ghost from_gives = { λ _ e. IsOutOfMemory e };

    /// Gives the error of a call that is out of memory.
    fn from(_: AllocError) -> Self {
        DigestFault::Memory
    }
}

impl<T: Drop> From<AllocFailed<T>> for DigestFault {
    ghost use Rattle.digest_reading.specs.Readings.{IsOutOfMemory};

    ghost from_gives = { λ _ e. IsOutOfMemory e };

    /// Gives the error of a call that is out of memory.
    fn from(_: AllocFailed<T>) -> Self {
        DigestFault::Memory
    }
}
