ghost use Rattle.std.specs.Prelude.{◌≡◌};
ghost use Rattle.segment_cut.specs.Faults.{fault_reason, fault_number, fault_of_clock};
ghost use Rattle.segment_cut.specs.declared.trace_fault.TraceFault.TheVariants.{Memory};

use clock_offsets::ClockFault;
use std::alloc::{AllocError, AllocFailed};

/// Why a trace is refused: out of memory, or the first fault that holds.
#[derive(Clone, Copy, Debug, PartialEq, Eq)]
pub enum TraceFault {
    /// Out of memory.
    Memory,
    /// It has over 4,096 events.
    TooManyEvents {
        /// How many it has.
        count: u32,
    },
    /// A line repeats the task and the event of an earlier line; the first such line.
    RepeatedEvent {
        /// The number of the line.
        line: u32,
    },
    /// A line sends a message that an earlier line sent; the first such line.
    RepeatedSend {
        /// The number of the line.
        line: u32,
    },
    /// A line receives a message that an earlier line received; the first such line.
    RepeatedRecv {
        /// The number of the line.
        line: u32,
    },
    /// An adjusted time is below -4,102,444,800,000,000,000 nanoseconds or above twice that many;
    /// the first such line.
    ClockRange {
        /// The number of the line.
        line: u32,
    },
}

impl TraceFault {
    /// Gives the reason as it is printed.
    pub fn reason(self) -> &'static str
        ensures { result.now ≡ fault_reason self }
    {
        match self {
            TraceFault::Memory => "out of memory",
            TraceFault::TooManyEvents { .. } => "too many events",
            TraceFault::RepeatedEvent { .. } => "repeated event",
            TraceFault::RepeatedSend { .. } => "repeated send",
            TraceFault::RepeatedRecv { .. } => "repeated receive",
            TraceFault::ClockRange { .. } => "clock out of range",
        }
    }

    /// Gives the number that is printed with the reason: how many events, or which line; 0 where
    /// it is out of memory.
    pub fn number(self) -> u32
        ensures { result ≡ fault_number self }
    {
        match self {
            TraceFault::Memory => 0,
            TraceFault::TooManyEvents { count } => count,
            TraceFault::RepeatedEvent { line }
            | TraceFault::RepeatedSend { line }
            | TraceFault::RepeatedRecv { line }
            | TraceFault::ClockRange { line } => line,
        }
    }
}

impl From<AllocError> for TraceFault {
    ghost from_gives = { λ _ e. e ≡ Memory };

    /// Converts an allocation failure to `Memory`.
    fn from(_error: AllocError) -> TraceFault {
        TraceFault::Memory
    }
}

impl<T: Drop> From<AllocFailed<T>> for TraceFault {
    ghost from_gives = { λ _ e. e ≡ Memory };

    /// Converts an allocation failure to `Memory`.
    fn from(_error: AllocFailed<T>) -> TraceFault {
        TraceFault::Memory
    }
}

impl From<ClockFault> for TraceFault {
    ghost from_gives = { λ fault e. e ≡ fault_of_clock fault };

    /// Gives the fault of a trace that has no offsets.
    fn from(fault: ClockFault) -> TraceFault {
        match fault {
            ClockFault::Memory => TraceFault::Memory,
            ClockFault::RepeatedSend { line } => TraceFault::RepeatedSend { line },
            ClockFault::RepeatedRecv { line } => TraceFault::RepeatedRecv { line },
        }
    }
}
