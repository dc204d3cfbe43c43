use std::alloc::{AllocError, AllocFailed};

/// Why the spans of an input have no requests.
#[derive(Clone, Copy, Debug, PartialEq, Eq)]
pub enum SpanFault {
    /// Out of memory.
    Memory,
    /// Two spans of a trace have one id and say different things.
    RepeatedId {
        /// The index of the first span that says something else than the first one with its id.
        span: usize,
    },
    /// The parents of spans form a circle.
    Circle {
        /// The index of the first span from which parents lead into a circle.
        span: usize,
    },
}

impl From<AllocError> for SpanFault {
    ghost use Rattle.std.specs.Prelude.{◌≡◌};
    ghost use Rattle.span_requests.specs.declared.span_fault.SpanFault.TheVariants.{Memory};

    ghost from_gives = { λ _ e. e ≡ Memory };

    /// Gives the fault of a call that is out of memory.
    fn from(_: AllocError) -> Self {
        SpanFault::Memory
    }
}
