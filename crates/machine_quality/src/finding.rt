ghost use Rattle.std.specs.Prelude.{◌≡◌, ◌++◌, ◌<◌, ◌^◌, All, IfOk, List, OnOk, length, map};
ghost use Rattle.std.specs.List.{AllZip};
ghost use Rattle.trace_types.specs.Batch.{PlainTrace};
ghost use Rattle.trace_types.specs.Times.{AreTimely};
ghost use Rattle.clock_offsets.specs.declared.machine_clock.MachineClock.{MachineClock};
ghost use Rattle.trace_quality.specs.Facts.{IsFacts, IsVerdict};
ghost use Rattle.machine_quality.specs.Told.{AreBelow, AreTold, clocks_under, named_clock};
ghost use Rattle.machine_quality.specs.inner.Numbered.{Appends};

use crate::NumberedClock;
use clock_offsets::MachineClock;
use event_table::{GatheredEvents, RawEvents};
use std::alloc::{AllocError, Global};
use trace_quality::{TraceFacts, Verdict, find_trace_clocks};

/// Appends clocks of machines of a trace, by the numbers of these.
fn push_clocks(
    told: &mut Vec<NumberedClock>,
    raw: &RawEvents<'_>,
    clocks: &[MachineClock],
) -> Result<(), AllocError>
    requires first { All (λ (c : MachineClock). c.first < length raw.now.trace.events) clocks.now }
    requires within { AreBelow (length raw.now.texts.machines) told.old.items }
    ensures joined { OnOk result (clocks_under raw.now.texts.machines told.new.items
        ≡ clocks_under raw.now.texts.machines told.old.items
        ++ map (named_clock raw.now.trace.events) clocks.now) }
    ensures within { OnOk result (AreBelow (length raw.now.texts.machines) told.new.items) }
{
    for clock in clocks {
        told.push(NumberedClock {
            machine: raw.machine(clock.first),
            clock: clock.clock,
        })?;
    }
    Ok(())
}

/// Appends what a trace with this verdict tells of the clocks of its machines.
fn push_told(
    alloc: Global,
    told: &mut Vec<NumberedClock>,
    raw: &RawEvents<'_>,
    verdict: Verdict,
) -> Result<(), AllocError>
    requires few { length raw.now.trace.events < 2 ^ 32 }
    requires timely { AreTimely raw.now.trace.events }
    requires judged { IsVerdict raw.now.trace verdict }
    requires within { AreBelow (length raw.now.texts.machines) told.old.items }
    ensures appended { OnOk result (Appends raw.now.texts.machines raw.now.trace verdict.fault
        told.old.items told.new.items) }
    ensures within { OnOk result (AreBelow (length raw.now.texts.machines) told.new.items) }
{
    let clocks = find_trace_clocks(alloc, raw, verdict)?;
    push_clocks(told, raw, &clocks)
}

/// Finds what the traces of a batch tell of the clocks of their machines, with these facts of each:
/// for each trace without a fault of its events or messages, and each of its machines but the
/// reference, in the order of the traces and then of the machines' first events. The machines are
/// told by their numbers in the batch's texts. The only error is out of memory.
pub fn find_told(
    alloc: Global,
    gathered: &GatheredEvents,
    facts: &[TraceFacts],
) -> Result<Vec<NumberedClock>, AllocError>
    requires few { All (λ (t : PlainTrace). length t.events < 2 ^ 32) gathered.now.traces }
    requires timely { All (λ (t : PlainTrace). AreTimely t.events) gathered.now.traces }
    requires known { AllZip IsFacts gathered.now.traces facts.now }
    ensures told { IfOk result (λ told. AreTold gathered.now.traces
        (clocks_under gathered.now.texts.machines told.items)) }
    ensures within { IfOk result (λ told.
        AreBelow (length gathered.now.texts.machines) told.items) }
{
    let mut told = Vec::new(alloc);
    'traces: for index in 0..gathered.len() {
        push_told(
            alloc,
            &mut told,
            &gathered.trace(index),
            facts[index].verdict,
        )?;
    }
    Ok(told)
}
