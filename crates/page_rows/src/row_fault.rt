use crate::Why;
use std::alloc::AllocError;

/// Why a row was not read.
#[derive(Clone, Copy, Debug)]
pub(crate) enum RowFault {
    /// An allocation failed.
    Memory,
    /// The line says no row.
    Bad(Why),
}

impl From<AllocError> for RowFault {
    ghost use Rattle.std.specs.Prelude.{◌≡◌};
    ghost use Rattle.page_rows.specs.declared.row_fault.RowFault.TheVariants.{Memory};

    ghost from_gives = { λ _ e. e ≡ Memory };

    /// Gives the fault of a call that is out of memory.
    fn from(_: AllocError) -> Self {
        RowFault::Memory
    }
}
