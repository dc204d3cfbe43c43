ghost use Rattle.std.specs.Prelude.{◌≡◌, ◌≢◌, ◌^◌, ◌<◌, ◌≤◌, ◌+ℤ◌, IfErr, IfOk, length};
ghost use Rattle.trace_types.specs.Events.{machine_at};
ghost use Rattle.trace_types.specs.Times.{AreTimely};
ghost use Rattle.clock_offsets.specs.declared.clock_fault.ClockFault.TheVariants.{Memory};
ghost use Rattle.clock_offsets.specs.Faults.{IsClockFault};
ghost use Rattle.clock_offsets.specs.MachineClocks.{AreMachineClocks, IsClock, IsRoundTrip};
ghost use Rattle.clock_offsets.specs.Messages.{ArePaired};
ghost use Rattle.clock_offsets.specs.inner.Delays.{AreLeastDelays};
ghost use Rattle.clock_offsets.specs.inner.Links.{AreLinks, AreNumbers, IsNumber};
ghost use Rattle.clock_offsets.specs.inner.Search.{AreDepths, AreMachineOffsets};

use crate::delays::find_least_delays;
use crate::first_events::{Field, find_first_events};
use crate::link::Link;
use crate::links::link_machines;
use crate::parents::find_parent;
use crate::search::search_offsets;
use crate::searched::Searched;
use crate::trace_offsets::index_senders;
use crate::{Clock, ClockFault, MachineClock};
use event_table::RawEvents;
use std::alloc::{AllocError, Global};
use std::collections::BTreeMap;

/// Adds two delays.
fn add_delays(there: i64, back: i64) -> i128
    ensures { result ≡ there +ℤ back }
{
    i128::from(there) + i128::from(back)
}

/// Gives the least delay from a machine to another and the least delay back, together.
fn round_trip(
    trace: &RawEvents<'_>,
    numbers: &[usize],
    least: &BTreeMap<(usize, usize), i64>,
    from: usize,
    to: usize,
) -> i128
    requires delays { AreLeastDelays trace.now.trace.events numbers.now least.now }
    requires from { IsNumber numbers.now from }
    requires to { IsNumber numbers.now to }
    requires paired { ArePaired trace.now.trace.events (machine_at trace.now.trace.events from)
        (machine_at trace.now.trace.events to) }
    ensures { IsRoundTrip trace.now.trace.events (machine_at trace.now.trace.events from)
        (machine_at trace.now.trace.events to) result }
{
    // For the proof alone.
    let _trace = trace;
    let _numbers = numbers;
    let Some(there) = least.get(&(from, to)).copied() else {
        return 0;
    };
    let Some(back) = least.get(&(to, from)).copied() else {
        return 0;
    };
    add_delays(there, back)
}

/// Tells what a search found of the clock of a machine that is not the reference.
fn clock_of(
    trace: &RawEvents<'_>,
    numbers: &[usize],
    least: &BTreeMap<(usize, usize), i64>,
    links: &[Vec<Link>],
    found: &Searched,
    machine: usize,
) -> Clock
    requires numbered { AreNumbers trace.now.trace.events numbers.now }
    requires delays { AreLeastDelays trace.now.trace.events numbers.now least.now }
    requires linked { AreLinks trace.now.trace.events numbers.now links.now }
    requires depths { AreDepths trace.now.trace.events numbers.now found.now.depths.items }
    requires offsets { AreMachineOffsets trace.now.trace.events numbers.now
        found.now.offsets.items }
    requires number { IsNumber numbers.now machine }
    requires other { 0 < machine }
    ensures { IsClock trace.now.trace.events (machine_at trace.now.trace.events machine) result }
{
    let Some(depth) = found.depths[machine] else {
        return Clock::Unreachable;
    };
    let Some(link) = find_parent(trace, &links[machine], &found.depths, depth - 1) else {
        return Clock::Unreachable;
    };
    Clock::Reached {
        offset: found.offsets[machine],
        round_trip: round_trip(trace, numbers, least, link.to, machine),
    }
}

/// Lists what a search found of the clocks of all machines but the reference.
fn list_clocks(
    alloc: Global,
    trace: &RawEvents<'_>,
    numbers: &[usize],
    least: &BTreeMap<(usize, usize), i64>,
    links: &[Vec<Link>],
    found: &Searched,
) -> Result<Vec<MachineClock>, AllocError>
    requires numbered { AreNumbers trace.now.trace.events numbers.now }
    requires delays { AreLeastDelays trace.now.trace.events numbers.now least.now }
    requires linked { AreLinks trace.now.trace.events numbers.now links.now }
    requires depths { AreDepths trace.now.trace.events numbers.now found.now.depths.items }
    requires offsets { AreMachineOffsets trace.now.trace.events numbers.now
        found.now.offsets.items }
    ensures told { IfOk result (λ clocks. AreMachineClocks trace.now.trace.events clocks.items) }
    ensures few { IfOk result (λ clocks. length clocks.items ≤ length trace.now.trace.events) }
{
    let mut clocks = Vec::new(alloc);
    for at in 1..trace.len() {
        if numbers[at] != at {
            continue;
        }
        let clock = clock_of(trace, numbers, least, links, found, at);
        clocks.push(MachineClock { first: at, clock })?;
    }
    Ok(clocks)
}

/// Finds what the least delays tell of the clocks of all machines but the reference.
fn clocks_by_delays(
    alloc: Global,
    trace: &RawEvents<'_>,
    numbers: &[usize],
    least: &BTreeMap<(usize, usize), i64>,
) -> Result<Vec<MachineClock>, AllocError>
    requires few { length trace.now.trace.events < 2 ^ 32 }
    requires numbered { AreNumbers trace.now.trace.events numbers.now }
    requires delays { AreLeastDelays trace.now.trace.events numbers.now least.now }
    ensures told { IfOk result (λ clocks. AreMachineClocks trace.now.trace.events clocks.items) }
    ensures few { IfOk result (λ clocks. length clocks.items ≤ length trace.now.trace.events) }
{
    let links = link_machines(alloc, trace, numbers, least)?;
    let found = search_offsets(alloc, trace, numbers, &links)?;
    list_clocks(alloc, trace, numbers, least, &links, &found)
}

/// Finds what the messages of a trace tell of the clock of each machine but the reference, the
/// machine of the first event, in the order of the machines' first events: that it has no offset,
/// since no pairings lead to it, or its offset as `offsets` gives it, and the round trip between its
/// parent and it: the least delay there and the least delay back, together. Where that is below 0,
/// the delays contradict each other, and adjusted times still have a message that is received before
/// it was sent.
///
/// Times are at most `trace_types::LATEST_TIME`; `RawEvents::is_timely` tells. The error is the
/// first fault that holds, a message that is sent twice and then one that is received twice, or out
/// of memory.
pub fn find_machine_clocks(
    alloc: Global,
    trace: &RawEvents<'_>,
) -> Result<Vec<MachineClock>, ClockFault>
    requires few { length trace.now.trace.events < 2 ^ 32 }
    requires timely { AreTimely trace.now.trace.events }
    ensures ok { IfOk result (λ clocks. AreMachineClocks trace.now.trace.events clocks.items) }
    ensures few { IfOk result (λ clocks. length clocks.items ≤ length trace.now.trace.events) }
    ensures err { IfErr result (λ fault. fault ≢ Memory
        → IsClockFault trace.now.trace.events fault) }
{
    let senders = index_senders(alloc, trace)?;
    let numbers = find_first_events(alloc, trace, Field::Machine)?;
    let least = find_least_delays(alloc, trace, &numbers, &senders)?;
    Ok(clocks_by_delays(alloc, trace, &numbers, &least)?)
}
