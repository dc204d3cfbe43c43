use std::alloc::{AllocError, AllocFailed};

/// Why a certificate was not read.
#[derive(Clone, Copy, Debug, PartialEq, Eq)]
pub enum CertFault {
    /// Out of memory.
    Memory,
    /// The certificate has a line that is outside the form: the first one.
    Bad {
        /// Its number, from 1 over the whole certificate.
        line: u32,
    },
}

impl From<AllocError> for CertFault {
    ghost use Rattle.certificates.specs.Certificates.{IsOutOfMemory};

    ghost from_gives = { λ _ e. IsOutOfMemory e };

    /// Gives the error of a call that is out of memory.
    fn from(_: AllocError) -> Self {
        CertFault::Memory
    }
}

impl<T: Drop> From<AllocFailed<T>> for CertFault {
    ghost use Rattle.certificates.specs.Certificates.{IsOutOfMemory};

    ghost from_gives = { λ _ e. IsOutOfMemory e };

    /// Gives the error of a call that is out of memory.
    fn from(_: AllocFailed<T>) -> Self {
        CertFault::Memory
    }
}
