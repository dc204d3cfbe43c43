ghost use Rattle.std.specs.Prelude.{◌≡◌, ◌&&◌, ◌||◌, ◌<◌, ◌^◌, ℕ, IfOk, OnOk, is_some, length, All};
ghost use Rattle.event_table.specs.Numbers.{text_under};
ghost use Rattle.event_table.specs.Texts.{AreDifferent};
ghost use Rattle.segment_cut.specs.NumberedCuts.{HasTexts, segment_under, segments_under};
ghost use Rattle.trace_quality.specs.Waits.{count_waits, is_wait, receives_at, sends_at};
ghost use Rattle.trace_quality.specs.inner.NamedSets.{AreReceivers, AreSenders, has_name};
ghost use Rattle.trace_quality.specs.inner.NamedSets.{has_names_at};

use event_table::RawEvents;
use segment_cut::{CutSegment, CutTrace};
use std::alloc::{AllocError, Global};
use std::collections::HashSet;

/// States that texts differ where their numbers do.
fn state_texts_differ(raw: &RawEvents<'_>)
    ensures tasks { AreDifferent raw.now.texts.tasks }
    ensures names { AreDifferent raw.now.texts.names }
{
    raw.texts().tasks().tell_texts_apart();
    raw.texts().names().tell_texts_apart();
}

/// Puts the task and the name of the event at this index among others.
fn put_name(
    named: &mut HashSet<(u32, u32)>,
    raw: &RawEvents<'_>,
    at: usize,
) -> Result<(), AllocError>
    requires { at < length raw.now.trace.events }
    ensures { OnOk result ((task name : ℕ) → task < length raw.now.texts.tasks
        → name < length raw.now.texts.names → has_name named.new task name
        ≡ (has_name named.old task name || has_names_at raw.now task name at)) }
{
    state_texts_differ(raw);
    named.insert((raw.task(at), raw.event(at)))?;
    Ok(())
}

/// Gathers the tasks and the names of the events that send a message.
fn gather_senders(alloc: Global, raw: &RawEvents<'_>) -> Result<HashSet<(u32, u32)>, AllocError>
    ensures { IfOk result (AreSenders raw.now) }
{
    let mut named = HashSet::new(alloc);
    'events: for at in 0..raw.len() {
        if raw.send(at).is_some() {
            put_name(&mut named, raw, at)?;
        }
    }
    Ok(named)
}

/// Gathers the tasks and the names of the events that receive a message.
fn gather_receivers(alloc: Global, raw: &RawEvents<'_>) -> Result<HashSet<(u32, u32)>, AllocError>
    ensures { IfOk result (AreReceivers raw.now) }
{
    let mut named = HashSet::new(alloc);
    'events: for at in 0..raw.len() {
        if raw.recv(at).is_some() {
            put_name(&mut named, raw, at)?;
        }
    }
    Ok(named)
}

/// Tells whether a segment is a wait.
fn is_wait(
    raw: &RawEvents<'_>,
    senders: &HashSet<(u32, u32)>,
    receivers: &HashSet<(u32, u32)>,
    segment: CutSegment,
) -> bool
    requires senders { AreSenders raw.now senders.now }
    requires receivers { AreReceivers raw.now receivers.now }
    requires texts { HasTexts raw.now.texts segment }
    ensures { result ≡ is_wait raw.now.trace.events (segment_under raw.now.texts segment) }
{
    // For the proof alone.
    let _raw = raw;
    senders.contains(&(segment.task, segment.start_event))
        && receivers.contains(&(segment.task, segment.end_event))
}

/// Counts the waits among segments.
fn count_among(
    raw: &RawEvents<'_>,
    senders: &HashSet<(u32, u32)>,
    receivers: &HashSet<(u32, u32)>,
    segments: &[CutSegment],
) -> u32
    requires senders { AreSenders raw.now senders.now }
    requires receivers { AreReceivers raw.now receivers.now }
    requires texts { All (HasTexts raw.now.texts) segments.now }
    requires few { length segments.now < 2 ^ 32 }
    ensures { result
        ≡ count_waits raw.now.trace.events (segments_under raw.now.texts segments.now) }
{
    let mut count = 0u32;
    'segments: for index in 0..segments.len() {
        if is_wait(raw, senders, receivers, segments[index]) {
            count += 1;
        }
    }
    count
}

/// Counts the waits among the segments that a trace was cut into. The only error is out of memory.
pub(crate) fn count_waits(
    alloc: Global,
    raw: &RawEvents<'_>,
    cut: &CutTrace<'_>,
) -> Result<u32, AllocError>
    requires texts { cut.now.texts ≡ raw.now.texts }
    requires few { length cut.now.trace.segments < 2 ^ 32 }
    ensures { IfOk result
        (λ count. count ≡ count_waits raw.now.trace.events cut.now.trace.segments) }
{
    let senders = gather_senders(alloc, raw)?;
    let receivers = gather_receivers(alloc, raw)?;
    Ok(count_among(raw, &senders, &receivers, cut.segments()))
}
