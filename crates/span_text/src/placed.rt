ghost use Rattle.std.specs.Prelude.{◌≡◌};
ghost use Rattle.span_text.specs.inner.Errors.{error_at};

use crate::{ReadError, Why};
use span_types::Span;
use std::alloc::{AllocError, AllocFailed};

/// A span, and where it stands in its file: the number of its line, or its own number, from 1.
#[derive(Debug, Drop)]
pub struct Placed {
    /// The number.
    pub place: usize,
    /// The span.
    pub span: Span,
}

/// Why a file has no spans: the number of a line or of a span, from 1, and what is bad there.
#[derive(Clone, Copy, Debug, PartialEq, Eq)]
pub struct Fault {
    /// The number.
    pub place: usize,
    /// The reason.
    pub why: Why,
}

/// Why the spans of a file were not read.
#[derive(Clone, Copy, Debug, PartialEq, Eq)]
pub enum SpanError {
    /// Out of memory.
    Memory,
    /// The file is bad, and this is the first fault.
    Refused(Fault),
}

impl From<AllocError> for SpanError {
    ghost use Rattle.span_text.specs.declared.placed.SpanError.TheVariants.{Memory};

    ghost from_gives = { λ _ e. e ≡ Memory };

    /// Gives the error of a call that is out of memory.
    fn from(_: AllocError) -> Self {
        SpanError::Memory
    }
}

impl<T: Drop> From<AllocFailed<T>> for SpanError {
    ghost use Rattle.span_text.specs.declared.placed.SpanError.TheVariants.{Memory};

    ghost from_gives = { λ _ e. e ≡ Memory };

    /// Gives the error of a call that is out of memory.
    fn from(_: AllocFailed<T>) -> Self {
        SpanError::Memory
    }
}

impl ReadError {
    /// Says where the refusal stands.
    pub fn at(self, place: usize) -> SpanError
        ensures { result ≡ error_at place self }
    {
        match self {
            ReadError::Memory => SpanError::Memory,
            ReadError::Refused(why) => SpanError::Refused(Fault { place, why }),
        }
    }
}
