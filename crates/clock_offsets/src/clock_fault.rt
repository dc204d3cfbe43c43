ghost use Rattle.std.specs.Prelude.{◌≡◌};
ghost use Rattle.clock_offsets.specs.declared.clock_fault.ClockFault.TheVariants.{Memory};

use std::alloc::{AllocError, AllocFailed};

/// Why a trace has no offsets: out of memory, or the first fault that holds.
#[derive(Clone, Copy, Debug, PartialEq, Eq)]
pub enum ClockFault {
    /// Out of memory.
    Memory,
    /// A line sends a message that an earlier line sent; the first such line.
    RepeatedSend {
        /// The number of the line.
        line: u32,
    },
    /// A line receives a message that an earlier line received; the first such line.
    RepeatedRecv {
        /// The number of the line.
        line: u32,
    },
}

impl From<AllocError> for ClockFault {
    ghost from_gives = { λ _ e. e ≡ Memory };

    /// Converts an allocation failure to `Memory`.
    fn from(_error: AllocError) -> ClockFault {
        ClockFault::Memory
    }
}

impl<T: Drop> From<AllocFailed<T>> for ClockFault {
    ghost from_gives = { λ _ e. e ≡ Memory };

    /// Converts an allocation failure to `Memory`.
    fn from(_error: AllocFailed<T>) -> ClockFault {
        ClockFault::Memory
    }
}
