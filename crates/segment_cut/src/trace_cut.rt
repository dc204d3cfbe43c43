ghost use Rattle.std.specs.Prelude.{◌≡◌, ◌≢◌, ◌^◌, ◌<◌, ◌≤◌, IfOk, IfErr, OnOk, length};
ghost use Rattle.trace_types.specs.Times.{AreTimely};
ghost use Rattle.trace_types.specs.Events.{named_events};
ghost use Rattle.trace_types.specs.Repeats.{AreDistinct};
ghost use Rattle.clock_offsets.specs.FirstEvents.{AreFirstEvents};
ghost use Rattle.clock_offsets.specs.Offsets.{AreOffsets};
ghost use Rattle.clock_offsets.specs.declared.first_events.Field.TheVariants.{Task};
ghost use Rattle.clock_offsets.specs.Faults.{AreMessagesOnce};
ghost use Rattle.segment_cut.specs.declared.trace_fault.TraceFault.TheVariants.{Memory};
ghost use Rattle.segment_cut.specs.Cutting.{HasFewEvents, IsCut};
ghost use Rattle.segment_cut.specs.Faults.{IsTraceFault};

use crate::keys::make_keys;
use crate::repeats::find_repeated_event;
use crate::segments::list_segments;
use crate::span::span;
use crate::{CutTrace, TraceFault};
use clock_offsets::{Field, find_first_events, offsets};
use event_table::RawEvents;
use std::alloc::Global;

/// The most events that a trace may have.
const MOST_EVENTS: usize = 4096;

/// A day of 86,400 seconds, in nanoseconds.
const NANOSECONDS_PER_DAY: u64 = 86_400_000_000_000;

/// Checks that the trace is short and that each task has each of its events once, and finds the
/// first event of each event's task.
fn check_events(alloc: Global, raw: &RawEvents<'_>) -> Result<Vec<usize>, TraceFault>
    requires { length raw.now.trace.events < 2 ^ 32 }
    ensures tasks { IfOk result (λ tasks. AreFirstEvents Task raw.now.trace.events tasks.items) }
    ensures short { OnOk result (HasFewEvents raw.now.trace.events) }
    ensures once { OnOk result (AreDistinct (named_events raw.now.trace.events)) }
    ensures err { IfErr result (λ fault. fault ≢ Memory → IsTraceFault raw.now.trace.events fault) }
{
    if raw.len() > MOST_EVENTS {
        return Err(TraceFault::TooManyEvents {
            count: raw.len() as u32,
        });
    }
    let tasks = find_first_events(alloc, raw, Field::Task)?;
    match find_repeated_event(alloc, raw, &tasks)? {
        Some(line) => Err(TraceFault::RepeatedEvent { line }),
        None => Ok(tasks),
    }
}

/// Cuts the trace by these offsets, once the earlier checks have passed and the first event of each
/// task is known.
fn cut_by<'a>(
    alloc: Global,
    raw: &RawEvents<'a>,
    tasks: &[usize],
    by_event: &[i128],
) -> Result<CutTrace<'a>, TraceFault>
    requires tasks { AreFirstEvents Task raw.now.trace.events tasks.now }
    requires timely { AreTimely raw.now.trace.events }
    requires short { HasFewEvents raw.now.trace.events }
    requires named { AreDistinct (named_events raw.now.trace.events) }
    requires messages { AreMessagesOnce raw.now.trace.events }
    requires offsets { AreOffsets raw.now.trace.events by_event.now }
    ensures ok { IfOk result (λ t. IsCut raw.now.trace.request raw.now.trace.events t.trace) }
    ensures texts { IfOk result (λ t. t.texts ≡ raw.now.texts) }
    ensures few { IfOk result (λ t. length t.trace.segments ≤ length raw.now.trace.events) }
    ensures err { IfErr result (λ fault. fault ≢ Memory → IsTraceFault raw.now.trace.events fault) }
{
    let made = make_keys(alloc, raw, tasks, by_event)?;
    let keys = match made {
        Ok(keys) => keys,
        Err(line) => return Err(TraceFault::ClockRange { line }),
    };
    // For the proof alone.
    let _count = raw.len();
    let latency = span(&keys);
    let segments = list_segments(alloc, raw, tasks, keys)?;
    Ok(CutTrace {
        texts: raw.texts(),
        request: raw.request_number(),
        day: (raw.time(0) / NANOSECONDS_PER_DAY) as u32,
        latency,
        segments,
    })
}

/// Cuts the trace of a request into its segments by the clock of the reference, the machine of the
/// first event.
///
/// The adjusted time of an event is its own less the offset of its machine, as
/// `clock_offsets::offsets` says. The events of a task are ordered by adjusted time and then by
/// line, and each two neighbours make a segment; a task with one event has none. The segments stand
/// by the first line of their task and then by their order in the task. The element of a segment is
/// the text after the first `@` of its start event's name, where that is not empty. The day is that
/// of the first event's own time, and the latency is the greatest adjusted time less the least, in
/// nanoseconds. Segments are those of M. Chow et al., "The Mystery Machine", OSDI 2014; the
/// spelling of elements is this project's own.
///
/// Times are at most `trace_types::LATEST_TIME`; `RawEvents::is_timely` tells.
///
/// The error is the first fault that holds, or out of memory. The faults are, in their order: over
/// 4,096 events, an event that its task has twice, a message that is sent twice, one that is
/// received twice, an adjusted time out of range.
pub fn cut<'a>(alloc: Global, raw: &RawEvents<'a>) -> Result<CutTrace<'a>, TraceFault>
    requires few { length raw.now.trace.events < 2 ^ 32 }
    requires timely { AreTimely raw.now.trace.events }
    ensures ok { IfOk result (λ t. IsCut raw.now.trace.request raw.now.trace.events t.trace) }
    ensures texts { IfOk result (λ t. t.texts ≡ raw.now.texts) }
    ensures few { IfOk result (λ t. length t.trace.segments ≤ length raw.now.trace.events) }
    ensures err { IfErr result (λ fault. fault ≢ Memory → IsTraceFault raw.now.trace.events fault) }
{
    let tasks = check_events(alloc, raw)?;
    let by_event = offsets(alloc, raw)?;
    cut_by(alloc, raw, &tasks, &by_event)
}
