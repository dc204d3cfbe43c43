ghost use Rattle.std.specs.Prelude.{◌≡◌};
ghost use Rattle.step_core.specs.declared.step_fault.StepFault.TheVariants.{Memory};

use std::alloc::AllocError;

/// Why a step is not made. After a fault the machine is unchanged.
#[derive(Clone, Copy, Debug, PartialEq, Eq)]
pub enum StepFault {
    /// Out of memory.
    Memory,
    /// The seat is not live.
    NoSeat {
        /// The seat.
        seat: u32,
    },
    /// The seat has not the shares that are asked for.
    BadShare {
        /// The shares of the seat.
        have: u32,
        /// The shares that are asked for; 1 for a clear.
        asked: u32,
    },
    /// A word is not below the width.
    BadWord {
        /// The word, counted from 0; of a row the first such word.
        word: u32,
        /// The number of words.
        width: u32,
    },
    /// The seat that closes has not all shares.
    SharesOut {
        /// The shares of the seat.
        have: u32,
        /// The number of all shares.
        all: u32,
    },
    /// A row is in progress at the seat, and the step is not a clear of this row.
    RowOpen {
        /// The seat.
        seat: u32,
    },
}

impl From<AllocError> for StepFault {
    ghost from_gives = { λ _ e. e ≡ Memory };

    /// Converts an allocation failure to `Memory`.
    fn from(_error: AllocError) -> StepFault {
        StepFault::Memory
    }
}
