ghost use Rattle.std.specs.Prelude.{◌≡◌};
ghost use Rattle.segment_names.specs.declared.unnamed.Unnamed.TheVariants.{Memory};

use std::alloc::{AllocError, AllocFailed};

/// Why segments are not named.
#[derive(Clone, Copy, Drop)]
pub(crate) enum Unnamed {
    /// Out of memory.
    Memory,
    /// The segment at this index is the first whose name is not in the catalogue.
    Unknown { segment: u32 },
}

impl From<AllocError> for Unnamed {
    ghost from_gives = { λ _ e. e ≡ Memory };

    fn from(_error: AllocError) -> Unnamed {
        Unnamed::Memory
    }
}

impl<T: Drop> From<AllocFailed<T>> for Unnamed {
    ghost from_gives = { λ _ e. e ≡ Memory };

    fn from(_error: AllocFailed<T>) -> Unnamed {
        Unnamed::Memory
    }
}
