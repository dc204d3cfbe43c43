ghost use Rattle.std.specs.Prelude.{◌^◌, ◌<◌, ◌≤◌, ◌↔◌, All, IfSome, IsTrue, List, length};
ghost use Rattle.refute_tests.specs.Clearing.{HaveNamesBelow};
ghost use Rattle.trace_types.specs.Parts.{by_text, segments_of};
ghost use Rattle.trace_types.specs.declared.event.Event.{Event};
ghost use Rattle.trace_types.specs.declared.named_segment.NamedSegment.{NamedSegment};

use event_table::{EventTable, GatheredEvents, RawEvents, gather};
use segment_cut::cut;
use segment_names::Catalogue;
use std::alloc::{AllocError, Global};
use std::thread::Threads;
use trace_types::{Event, NamedSegment, NamedTrace, Trace};

/// Gathers the events of one table.
fn gather_one<R: Threads + Sync>(
    rt: &R,
    alloc: Global,
    table: EventTable,
) -> Result<GatheredEvents, AllocError>
    requires { length table ≤ 100000 }
{
    let mut parts = Vec::new(alloc);
    parts.push(table)?;
    gather(rt, alloc, parts, 4)
}

/// Cuts a trace and copies it; none where it is refused.
fn cut_one(alloc: Global, raw: &RawEvents<'_>) -> Option<Trace> {
    if !raw.is_timely() {
        return None;
    }
    if raw.len() > 4096 {
        return None;
    }
    let trace = cut(alloc, raw).ok()?;
    trace.copy(alloc).ok()
}

/// Cuts gathered traces; none where one is refused.
fn cut_all(alloc: Global, gathered: &GatheredEvents) -> Option<Vec<Trace>> {
    let mut traces = Vec::with_capacity(alloc, gathered.len()).ok()?;
    for index in 0..gathered.len() {
        traces.push(cut_one(alloc, &gathered.trace(index))?).ok()?;
    }
    Some(traces)
}

/// Makes the table of events; none where there are too many.
fn table_of(alloc: Global, events: &[Event]) -> Option<EventTable>
    ensures { IfSome result (λ (t : List Event). length t ≤ 100000) }
{
    if events.len() > 100_000 {
        return None;
    }
    let table = EventTable::of_events(alloc, events).ok()?;
    if table.len() > 100_000 {
        return None;
    }
    Some(table)
}

/// Gathers and cuts the traces of events; none where a trace is refused.
pub(crate) fn cut_traces<R: Threads + Sync>(
    rt: &R,
    alloc: Global,
    events: Vec<Event>,
) -> Option<Vec<Trace>> {
    let table = table_of(alloc, &events)?;
    let gathered = gather_one(rt, alloc, table).ok()?;
    cut_all(alloc, &gathered)
}

/// Adds the names and tasks of traces to a catalogue; none where a limit is passed.
fn add_all(alloc: Global, catalogue: &mut Catalogue, traces: &[Trace]) -> Option<()> {
    for trace in traces {
        if trace.segments.items().len() > 4096 {
            return None;
        }
        catalogue.add(alloc, trace).ok()?;
    }
    Some(())
}

/// Names a trace by the numbers of a catalogue, with this grace.
fn name_one(alloc: Global, catalogue: &Catalogue, trace: Trace, grace: u64) -> Option<NamedTrace>
    requires { grace ≤ 1000000000 }
{
    if trace.segments.items().len() > 4096 {
        return None;
    }
    Some(catalogue.name(alloc, trace).ok()?.with_grace(grace))
}

/// Names traces by the numbers of a catalogue, each with this grace.
fn name_all(
    alloc: Global,
    catalogue: &Catalogue,
    traces: Vec<Trace>,
    grace: u64,
) -> Option<Vec<NamedTrace>>
    requires { grace ≤ 1000000000 }
{
    let mut named = Vec::with_capacity(alloc, traces.len()).ok()?;
    for trace in traces {
        named.push(name_one(alloc, catalogue, trace, grace)?).ok()?;
    }
    Some(named)
}

/// Numbers the names of traces, and names the traces by them, each with this grace.
pub(crate) fn name_traces(
    alloc: Global,
    traces: Vec<Trace>,
    grace: u64,
) -> Option<(Catalogue, Vec<NamedTrace>)> {
    if grace > 1_000_000_000 {
        return None;
    }
    let mut catalogue = Catalogue::new(alloc);
    add_all(alloc, &mut catalogue, &traces)?;
    let named = name_all(alloc, &catalogue, traces, grace)?;
    Some((catalogue, named))
}

/// Tells whether the names of segments are below this number.
fn have_names_below(segments: &[NamedSegment], names: u32) -> bool
    ensures { IsTrue result ↔ All (λ (s : NamedSegment). s.name < names) segments.now }
{
    segments.iter().all(|s| s.name < names)
}

/// Tells whether the names of a trace are below this number.
pub(crate) fn is_below(trace: &NamedTrace, names: u32) -> bool
    ensures { IsTrue result → HaveNamesBelow names trace.now }
{
    have_names_below(trace.segments.items(), names)
}

/// Tells whether the names of all traces are below this number.
pub(crate) fn are_below(traces: &[NamedTrace], names: u32) -> bool
    ensures { IsTrue result → All (HaveNamesBelow names) traces.now }
{
    for trace in traces {
        if !is_below(trace, names) {
            return false;
        }
    }
    true
}

/// Tells whether the traces have fewer than 2^32 segments.
pub(crate) fn are_few(traces: &[Trace]) -> bool
    ensures { IsTrue result → length (segments_of by_text traces.now) < 2 ^ 32 }
{
    let mut count = 0u64;
    for trace in traces {
        count += trace.segments.items().len() as u64;
        if count >= 1 << 32 {
            return false;
        }
    }
    true
}
