ghost use Rattle.std.specs.Prelude.{◌<◌, IfOk, length};
ghost use Rattle.trace_types.specs.Times.{AreTimely};
ghost use Rattle.trace_types.specs.Events.{sends_of};
ghost use Rattle.clock_offsets.specs.inner.Places.{AreIndices};
ghost use Rattle.clock_offsets.specs.inner.Links.{AreNumbers};
ghost use Rattle.clock_offsets.specs.inner.Delays.{AreLeastDelays};

use crate::message_places::MessagePlaces;
use crate::messages::find_message;
use event_table::RawEvents;
use std::alloc::{AllocError, Global};
use std::collections::BTreeMap;

/// Finds the least one-way delay from each machine to each other one that receives messages of it.
pub(crate) fn find_least_delays(
    alloc: Global,
    trace: &RawEvents<'_>,
    numbers: &[usize],
    senders: &MessagePlaces,
) -> Result<BTreeMap<(usize, usize), i64>, AllocError>
    requires numbered { AreNumbers trace.now.trace.events numbers.now }
    requires placed { AreIndices (sends_of trace.now.trace.events)
        (length trace.now.trace.events) senders.now }
    requires timely { AreTimely trace.now.trace.events }
    ensures { IfOk result (λ least. AreLeastDelays trace.now.trace.events numbers.now least) }
{
    let mut least = BTreeMap::new(alloc);
    for at in 0..trace.len() {
        let Some(message) = find_message(trace, numbers, senders, at) else {
            continue;
        };
        let way = (message.from, message.to);
        let delay = match least.get(&way).copied() {
            Some(known) => message.delay.min(known),
            None => message.delay,
        };
        least.insert(way, delay)?;
    }
    Ok(least)
}
