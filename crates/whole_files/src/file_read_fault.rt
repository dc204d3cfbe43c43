use std::alloc::AllocError;

/// Why a file was not read.
#[derive(Clone, Copy, Debug, PartialEq, Eq)]
pub enum FileReadFault {
    /// An allocation failed.
    Memory,
    /// It could not be opened or read.
    Failed,
    /// It has more bytes than it may have.
    TooBig,
}

impl From<AllocError> for FileReadFault {
    ghost use Rattle.std.specs.Prelude.{◌≡◌};
    ghost use Rattle.whole_files.specs.declared.file_read_fault.FileReadFault.TheVariants.{Memory};

    ghost from_gives = { λ _ e. e ≡ Memory };

    fn from(_: AllocError) -> Self {
        FileReadFault::Memory
    }
}
