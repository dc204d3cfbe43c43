use crate::DigestLimit;
use std::alloc::{AllocError, AllocFailed};

/// Why digests were not merged.
#[derive(Clone, Copy, Debug, PartialEq, Eq)]
pub enum MergeFault {
    /// Out of memory.
    Memory,
    /// The merged digest passes a limit: the first of names, tasks and traces.
    Limit(DigestLimit),
}

impl From<AllocError> for MergeFault {
    ghost use Rattle.digest_merging.specs.Merges.{IsOutOfMemory};

    ghost from_gives = { λ _ e. IsOutOfMemory e };

    /// Gives the error of a call that is out of memory.
    fn from(_: AllocError) -> Self {
        MergeFault::Memory
    }
}

impl<T: Drop> From<AllocFailed<T>> for MergeFault {
    ghost use Rattle.digest_merging.specs.Merges.{IsOutOfMemory};

    ghost from_gives = { λ _ e. IsOutOfMemory e };

    /// Gives the error of a call that is out of memory.
    fn from(_: AllocFailed<T>) -> Self {
        MergeFault::Memory
    }
}
