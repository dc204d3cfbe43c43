//! Copies of traces and of entries.
ghost use Rattle.std.specs.Prelude.{◌≡◌, ◌-◌, ◌≤◌, drop, vec_capacity, IfOk};

use crate::Entry;
use std::alloc::{AllocError, Global};
use trace_types::{NamedTrace, NamedTraceList};

/// Copies the traces. The only error is that memory ran out.
pub(crate) fn copy_traces(
    alloc: Global,
    traces: &[NamedTrace],
) -> Result<NamedTraceList, AllocError>
    ensures { IfOk result (λ copy. copy ≡ traces.now) }
{
    let mut copy = Vec::with_capacity(alloc, traces.len())?;
    for trace in traces {
        copy.push_reserved(trace.copy(alloc)?);
    }
    Ok(NamedTraceList::of(copy))
}

impl Entry {
    /// Copies the entry with its traces. The only error is that memory ran out.
    pub fn copy(&self, alloc: Global) -> Result<Entry, AllocError>
        ensures { IfOk result (λ e. e ≡ self.now) }
    {
        match self {
            Entry::Rolled { day, traces } => Ok(Entry::Rolled {
                day: *day,
                traces: copy_traces(alloc, traces.items())?,
            }),
            Entry::Dropped { day } => Ok(Entry::Dropped { day: *day }),
            Entry::Kept { days } => Ok(Entry::Kept { days: *days }),
        }
    }
}

/// Copies the entries. The only error is that memory ran out.
pub(crate) fn copy_entries(alloc: Global, entries: &[Entry]) -> Result<Vec<Entry>, AllocError>
    ensures { IfOk result (λ copy. copy.items ≡ entries.now) }
{
    let mut copy = Vec::with_capacity(alloc, entries.len())?;
    for entry in entries {
        copy.push_reserved(entry.copy(alloc)?);
    }
    Ok(copy)
}
