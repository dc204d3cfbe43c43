ghost use Rattle.std.specs.Prelude.{◌<◌, ◌^◌, IfOk, length};
ghost use Rattle.trace_types.specs.Times.{AreTimely};
ghost use Rattle.trace_quality.specs.Facts.{IsVerdict};

use crate::waits::count_waits;
use event_table::RawEvents;
use segment_cut::{TraceFault, cut};
use std::alloc::{AllocError, Global};

/// Whether a trace is refused, and of one that is not how many segments it has and how many of them
/// are waits.
#[derive(Clone, Copy, Debug, PartialEq, Eq)]
pub struct Verdict {
    /// Why it is refused, if it is; never out of memory.
    pub fault: Option<TraceFault>,
    /// How many segments it has; 0 where it is refused.
    pub segments: u32,
    /// How many of them begin with a send and end with a receipt.
    pub waits: u32,
}

/// Judges a trace. The only error is out of memory.
pub(crate) fn judge(alloc: Global, raw: &RawEvents<'_>) -> Result<Verdict, AllocError>
    requires few { length raw.now.trace.events < 2 ^ 32 }
    requires timely { AreTimely raw.now.trace.events }
    ensures { IfOk result (IsVerdict raw.now.trace) }
{
    match cut(alloc, raw) {
        Ok(trace) => Ok(Verdict {
            fault: None,
            segments: trace.segments().len() as u32,
            waits: count_waits(alloc, raw, &trace)?,
        }),
        Err(TraceFault::Memory) => Err(AllocError),
        Err(fault) => Ok(Verdict {
            fault: Some(fault),
            segments: 0,
            waits: 0,
        }),
    }
}
