ghost use Rattle.std.specs.Prelude.{◌≡◌};
ghost use Rattle.segment_names.specs.declared.name_fault.NameFault.TheVariants.{Memory, Over};

use std::alloc::{AllocError, AllocFailed};

/// A limit of a catalogue that would be passed, with how many there would be.
#[derive(Clone, Copy, Debug, PartialEq, Eq)]
pub enum NameLimit {
    /// There would be over 512 names.
    Names {
        /// How many there would be.
        count: u32,
    },
    /// The names fit, and there would be over 64 tasks.
    Tasks {
        /// How many there would be.
        count: u32,
    },
}

/// Why a trace is not added to a catalogue. Out of memory may come at any time.
#[derive(Clone, Copy, Debug, PartialEq, Eq)]
pub enum NameFault {
    /// Out of memory.
    Memory,
    /// A limit would be passed.
    Over {
        /// The first one.
        limit: NameLimit,
    },
}

impl From<AllocError> for NameFault {
    ghost from_gives = { λ _ e. e ≡ Memory };

    fn from(_error: AllocError) -> NameFault {
        NameFault::Memory
    }
}

impl From<NameLimit> for NameFault {
    ghost from_gives = { λ limit e. e ≡ Over limit };

    fn from(limit: NameLimit) -> NameFault {
        NameFault::Over { limit }
    }
}
