use std::alloc::{AllocError, AllocFailed};

/// Why a file was not made.
#[derive(Clone, Copy, Debug, PartialEq, Eq)]
pub enum CreateFault {
    /// An allocation failed.
    Memory,
    /// The file could not be made, and the object counted one fault.
    Failed,
}

impl From<AllocError> for CreateFault {
    ghost use Rattle.std.specs.Prelude.{◌≡◌};
    ghost use Rattle.output_files.specs.declared.create_fault.CreateFault.TheVariants.{Memory};

    ghost from_gives = { λ _ e. e ≡ Memory };

    fn from(_: AllocError) -> Self {
        CreateFault::Memory
    }
}

impl<T: Drop> From<AllocFailed<T>> for CreateFault {
    ghost use Rattle.std.specs.Prelude.{◌≡◌};
    ghost use Rattle.output_files.specs.declared.create_fault.CreateFault.TheVariants.{Memory};

    ghost from_gives = { λ _ e. e ≡ Memory };

    fn from(_: AllocFailed<T>) -> Self {
        CreateFault::Memory
    }
}
