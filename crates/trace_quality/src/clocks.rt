ghost use Rattle.std.specs.Prelude.{◌≡◌, ◌<◌, ◌≤◌, ◌^◌, IfOk, count_by, length, not, true};
ghost use Rattle.trace_types.specs.Times.{AreTimely};
ghost use Rattle.clock_offsets.specs.declared.machine_clock.MachineClock.{MachineClock};
ghost use Rattle.clock_offsets.specs.Faults.{AreMessagesOnce};
ghost use Rattle.clock_offsets.specs.MachineClocks.{AreMachineClocks};
ghost use Rattle.trace_quality.specs.Clocks.{AreClocks, AreTraceClocks, has_offsets};
ghost use Rattle.trace_quality.specs.Clocks.{is_contradicted, is_reached};
ghost use Rattle.trace_quality.specs.Facts.{IsVerdict};

use crate::Verdict;
use clock_offsets::{Clock, ClockFault, MachineClock, find_machine_clocks};
use event_table::RawEvents;
use segment_cut::TraceFault;
use std::alloc::{AllocError, Global};

/// How many machines a trace has beside the reference, and what is told of their clocks.
#[derive(Clone, Copy, Debug, PartialEq, Eq)]
pub struct ClockCounts {
    /// How many there are; 0 where the trace has a fault of its events or messages.
    pub all: u32,
    /// How many have an offset.
    pub reached: u32,
    /// How many have none, since no pairings lead to them: their raw clocks count.
    pub unreached: u32,
    /// How many have one whose delays contradict each other.
    pub contradicted: u32,
}

/// Tells whether a trace with this fault has offsets.
fn has_offsets(fault: Option<TraceFault>) -> bool
    ensures { result ≡ has_offsets fault }
{
    match fault {
        None | Some(TraceFault::ClockRange { .. }) => true,
        Some(
            TraceFault::Memory
            | TraceFault::TooManyEvents { .. }
            | TraceFault::RepeatedEvent { .. }
            | TraceFault::RepeatedSend { .. }
            | TraceFault::RepeatedRecv { .. },
        ) => false,
    }
}

/// Tells whether a clock has an offset.
pub fn is_reached(clock: Clock) -> bool
    ensures { result ≡ is_reached clock }
{
    match clock {
        Clock::Unreachable => false,
        Clock::Reached { .. } => true,
    }
}

/// Tells whether the delays of a clock contradict each other: there and back they are together below
/// 0.
pub fn is_contradicted(clock: Clock) -> bool
    ensures { result ≡ is_contradicted clock }
{
    match clock {
        Clock::Unreachable => false,
        Clock::Reached { round_trip, .. } => round_trip < 0,
    }
}

/// Counts the clocks that have an offset.
fn count_reached(clocks: &[MachineClock]) -> usize
    ensures { result ≡ count_by (λ (m : MachineClock). is_reached m.clock) clocks.now }
{
    clocks.iter().filter(|m| is_reached(m.clock)).count()
}

/// Counts the clocks that have none.
fn count_unreached(clocks: &[MachineClock]) -> usize
    ensures { result ≡ count_by (λ (m : MachineClock). not (is_reached m.clock)) clocks.now }
{
    clocks.iter().filter(|m| !is_reached(m.clock)).count()
}

/// Counts the clocks whose delays contradict each other.
fn count_contradicted(clocks: &[MachineClock]) -> usize
    ensures { result ≡ count_by (λ (m : MachineClock). is_contradicted m.clock) clocks.now }
{
    clocks.iter().filter(|m| is_contradicted(m.clock)).count()
}

/// Finds the clocks of a trace that has offsets. The only error is out of memory.
fn find_clocks(alloc: Global, raw: &RawEvents<'_>) -> Result<Vec<MachineClock>, AllocError>
    requires few { length raw.now.trace.events < 2 ^ 32 }
    requires timely { AreTimely raw.now.trace.events }
    requires once { AreMessagesOnce raw.now.trace.events }
    ensures told { IfOk result (λ clocks. AreMachineClocks raw.now.trace.events clocks.items) }
    ensures few { IfOk result (λ clocks. length clocks.items ≤ length raw.now.trace.events) }
{
    match find_machine_clocks(alloc, raw) {
        Ok(clocks) => Ok(clocks),
        Err(ClockFault::Memory) => Err(AllocError),
        Err(ClockFault::RepeatedSend { .. }) => unreachable!(),
        Err(ClockFault::RepeatedRecv { .. }) => unreachable!(),
    }
}

/// Finds what a trace with this verdict tells of the clocks of its machines but the reference, in the
/// order of their first events: nothing where it has a fault of its events or messages. The only
/// error is out of memory.
pub fn find_trace_clocks(
    alloc: Global,
    raw: &RawEvents<'_>,
    verdict: Verdict,
) -> Result<Vec<MachineClock>, AllocError>
    requires few { length raw.now.trace.events < 2 ^ 32 }
    requires timely { AreTimely raw.now.trace.events }
    requires judged { IsVerdict raw.now.trace verdict }
    ensures told { IfOk result (λ clocks.
        AreTraceClocks raw.now.trace.events verdict.fault clocks.items) }
    ensures few { IfOk result (λ clocks. length clocks.items ≤ length raw.now.trace.events) }
{
    if has_offsets(verdict.fault) {
        find_clocks(alloc, raw)
    } else {
        Ok(Vec::new(alloc))
    }
}

/// Counts what is told of the clocks of a trace with this verdict. The only error is out of memory.
pub(crate) fn count_clocks(
    alloc: Global,
    raw: &RawEvents<'_>,
    verdict: Verdict,
) -> Result<ClockCounts, AllocError>
    requires few { length raw.now.trace.events < 2 ^ 32 }
    requires timely { AreTimely raw.now.trace.events }
    requires judged { IsVerdict raw.now.trace verdict }
    ensures { IfOk result (AreClocks raw.now.trace.events verdict.fault) }
{
    let clocks = find_trace_clocks(alloc, raw, verdict)?;
    Ok(ClockCounts {
        all: clocks.len() as u32,
        reached: count_reached(&clocks) as u32,
        unreached: count_unreached(&clocks) as u32,
        contradicted: count_contradicted(&clocks) as u32,
    })
}
