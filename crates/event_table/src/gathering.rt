ghost use Rattle.std.specs.Prelude.{◌≡◌, ◌^◌, ◌<◌, length, IfOk};
ghost use Rattle.trace_types.specs.Batch.{traces_of};
ghost use Rattle.event_table.specs.Gathered.{events_of_tables};

use crate::numbering::{NumberedParts, number_parts};
use crate::spreading::{GroupedEvents, group_events};
use crate::{EventTable, GatheredEvents};
use std::alloc::{AllocError, Global};
use std::thread::Threads;

/// Gathers a batch of events into traces: for each request all its events, in the order of the
/// batch, which is that of the parts. Traces stand in the order of their first events. The texts of
/// all parts are numbered in the same tables, and no event is compared by its texts. Up to so many
/// workers place the events in parallel; few events are placed by the caller alone. The only error
/// is out of memory.
pub fn gather<R: Threads + Sync>(
    rt: &R,
    alloc: Global,
    parts: Vec<EventTable>,
    workers: u32,
) -> Result<GatheredEvents, AllocError>
    requires few { length (events_of_tables parts.items) < 2 ^ 32 }
    ensures traces { IfOk result (λ g. g.traces ≡ traces_of (events_of_tables parts.items)) }
{
    let NumberedParts {
        texts,
        messages,
        parts,
    } = number_parts(alloc, parts)?;
    texts.tell_texts_apart();
    let requests = texts.requests().len();
    let GroupedEvents { blocks, count } = group_events(rt, alloc, requests, &parts, workers)?;
    Ok(GatheredEvents {
        texts,
        messages,
        blocks,
        count,
    })
}
