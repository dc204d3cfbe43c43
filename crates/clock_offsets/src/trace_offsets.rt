ghost use Rattle.std.specs.Prelude.{◌≡◌, ◌≢◌, ◌^◌, ◌<◌, IfOk, IfErr, OnOk, length};
ghost use Rattle.trace_types.specs.Times.{AreTimely};
ghost use Rattle.trace_types.specs.Events.{sends_of};
ghost use Rattle.clock_offsets.specs.declared.clock_fault.ClockFault.TheVariants.{Memory};
ghost use Rattle.clock_offsets.specs.Offsets.{AreOffsets};
ghost use Rattle.clock_offsets.specs.Faults.{AreMessagesOnce, IsClockFault};
ghost use Rattle.clock_offsets.specs.inner.Places.{AreIndices};
ghost use Rattle.clock_offsets.specs.inner.Links.{AreNumbers};
ghost use Rattle.clock_offsets.specs.inner.Delays.{AreLeastDelays};
ghost use Rattle.clock_offsets.specs.inner.Search.{AreMachineOffsets};

use crate::ClockFault;
use crate::delays::find_least_delays;
use crate::first_events::{Field, find_first_events};
use crate::links::link_machines;
use crate::message_places::MessagePlaces;
use crate::places::{End, index_messages};
use crate::search::search_offsets;
use event_table::RawEvents;
use std::alloc::{AllocError, Global};
use std::collections::BTreeMap;

/// Gives each event the offset of its machine.
fn spread_to_events(
    alloc: Global,
    trace: &RawEvents<'_>,
    numbers: &[usize],
    offsets: &[i128],
) -> Result<Vec<i128>, AllocError>
    requires numbered { AreNumbers trace.now.trace.events numbers.now }
    requires offset { AreMachineOffsets trace.now.trace.events numbers.now offsets.now }
    ensures { IfOk result (λ each. AreOffsets trace.now.trace.events each.items) }
{
    let mut each = Vec::with_capacity(alloc, numbers.len())?;
    for number in numbers {
        each.push(offsets[*number])?;
    }
    Ok(each)
}

/// Gives each event the offset of its machine, which the least delays tell: 0 where there are none.
fn offsets_by_delays(
    alloc: Global,
    trace: &RawEvents<'_>,
    numbers: &[usize],
    least: &BTreeMap<(usize, usize), i64>,
) -> Result<Vec<i128>, AllocError>
    requires few { length trace.now.trace.events < 2 ^ 32 }
    requires numbered { AreNumbers trace.now.trace.events numbers.now }
    requires delays { AreLeastDelays trace.now.trace.events numbers.now least.now }
    ensures { IfOk result (λ each. AreOffsets trace.now.trace.events each.items) }
{
    if least.is_empty() {
        let each = vec![in alloc; 0i128; trace.len()]?;
        return Ok(each);
    }
    let links = link_machines(alloc, trace, numbers, least)?;
    let found = search_offsets(alloc, trace, numbers, &links)?;
    spread_to_events(alloc, trace, numbers, &found.offsets)
}

/// Maps each message to the index of the event that sends it, once it is known that no message is
/// sent twice or received twice.
pub(crate) fn index_senders<'a>(
    alloc: Global,
    trace: &RawEvents<'a>,
) -> Result<MessagePlaces<'a>, ClockFault>
    ensures ok { IfOk result (λ m. AreIndices (sends_of trace.now.trace.events)
        (length trace.now.trace.events) m) }
    ensures once { OnOk result (AreMessagesOnce trace.now.trace.events) }
    ensures err { IfErr result (λ fault. fault ≢ Memory
        → IsClockFault trace.now.trace.events fault) }
{
    let senders = index_messages(alloc, trace, End::Sending)?;
    match index_messages(alloc, trace, End::Receipt) {
        Ok(_receivers) => Ok(senders),
        Err(fault) => Err(fault),
    }
}

/// Finds for each event of the trace, by index, the offset of its machine's clock from that of the
/// reference, the machine of the first event, in nanoseconds.
///
/// Two machines are paired where messages go between them in both directions. The one-way delay of
/// a message is its receive time minus its send time, each by its own machine's clock. The offset
/// of one machine relative to another is half of the least delay to it minus the least delay from
/// it, rounded towards minus infinity. A breadth-first search from the reference gives each machine
/// its depth; its parent is, of the paired machines one depth nearer to the reference, the one with
/// the least name, and its offset is the parent's plus its own relative to the parent. It is 0
/// where no pairings lead to the machine. This is the symmetric half round trip of M. Chow et al.,
/// "The Mystery Machine", OSDI 2014, section 3.1; the choice of parents is this project's own.
///
/// Times are at most `trace_types::LATEST_TIME`; `RawEvents::is_timely` tells. The error is the
/// first fault that holds, a message that is sent twice and then one that is received twice, or out
/// of memory.
pub fn offsets(alloc: Global, trace: &RawEvents<'_>) -> Result<Vec<i128>, ClockFault>
    requires few { length trace.now.trace.events < 2 ^ 32 }
    requires timely { AreTimely trace.now.trace.events }
    ensures ok { IfOk result (λ offsets. AreOffsets trace.now.trace.events offsets.items) }
    ensures once { OnOk result (AreMessagesOnce trace.now.trace.events) }
    ensures err { IfErr result (λ fault. fault ≢ Memory
        → IsClockFault trace.now.trace.events fault) }
{
    let senders = index_senders(alloc, trace)?;
    let numbers = find_first_events(alloc, trace, Field::Machine)?;
    let least = find_least_delays(alloc, trace, &numbers, &senders)?;
    Ok(offsets_by_delays(alloc, trace, &numbers, &least)?)
}
