//! Books of one day, whose traces have one segment each.
ghost use Rattle.std.specs.Prelude.{◌≡◌, ◌↔◌, ◌<◌, ◌≤◌, All, IfSome, IsTrue, length};
ghost use Rattle.day_partitions.specs.Books.{AreOfDay};
ghost use Rattle.refute_tests.specs.Clearing.{HaveNamesBelow};
ghost use Rattle.trace_types.specs.declared.named_segment.NamedSegment.{NamedSegment};

use day_partitions::DayBook;
use kept_books::KeptBook;
use pipeline_tests::DaySheet;
use segment_names::Catalogue;
use std::alloc::Global;
use trace_types::{NamedSegment, NamedTrace, Segment, SegmentList, Text, Trace};

/// Makes a trace of one segment of this task, which lasts so long.
fn single(alloc: Global, task: &str, time: u32) -> Option<Trace>
    ensures { IfSome result (λ t. length t.segments ≡ 1) }
{
    let segment = Segment {
        task: Text::new(alloc, task).ok()?,
        start_event: Text::new(alloc, "s").ok()?,
        end_event: Text::new(alloc, "e").ok()?,
        start: 0,
        end: i64::from(time),
        element: None,
    };
    Some(Trace {
        request: Text::new(alloc, "r").ok()?,
        day: 3,
        latency: u64::from(time),
        segments: SegmentList::of(Vec::from_array(alloc, [segment]).ok()?),
    })
}

/// Adds the trace's names to a catalogue, and names it by their numbers.
fn name_trace(
    alloc: Global,
    catalogue: &mut Catalogue,
    task: &str,
    time: u32,
) -> Option<NamedTrace> {
    let trace = single(alloc, task, time)?;
    catalogue.add(alloc, &trace).ok()?;
    catalogue.name(alloc, trace).ok()
}

/// Tells whether all traces are of this day.
fn are_of_day(traces: &[NamedTrace], day: u32) -> bool
    ensures { IsTrue result → AreOfDay day traces.now }
{
    traces.iter().all(|t| t.day == day)
}

/// Tells whether the names of segments are below this number.
fn have_names_below(segments: &[NamedSegment], names: u32) -> bool
    ensures { IsTrue result ↔ All (λ (s : NamedSegment). s.name < names) segments.now }
{
    segments.iter().all(|s| s.name < names)
}

/// Tells whether the names of all traces are below this number.
fn are_below(traces: &[NamedTrace], names: u32) -> bool
    ensures { IsTrue result → All (HaveNamesBelow names) traces.now }
{
    'traces: for trace in traces {
        if !have_names_below(trace.segments.items(), names) {
            return false;
        }
    }
    true
}

/// Makes a book of traces of day 3, for the names of a catalogue; none where it cannot.
fn days_of(alloc: Global, catalogue: &Catalogue, traces: Vec<NamedTrace>) -> Option<DayBook>
    ensures { IfSome result (λ b. b.names ≤ length catalogue.now.names) }
{
    let names = catalogue.names();
    let mut book = DayBook::new(alloc, names).ok()?;
    if traces.is_empty() {
        return Some(book);
    }
    if traces.len() > 1000 || !are_of_day(&traces, 3) || !are_below(&traces, names) {
        return None;
    }
    let sheet = DaySheet::plain(alloc, traces, names).ok()?;
    let Ok(()) = book.add(3, sheet) else {
        return None;
    };
    Some(book)
}

/// Makes a book of traces of day 3, under a catalogue; none where it cannot.
fn book_of(alloc: Global, catalogue: Catalogue, traces: Vec<NamedTrace>) -> Option<KeptBook> {
    let days = days_of(alloc, &catalogue, traces)?;
    KeptBook::of(catalogue, days).ok()
}

/// Names a trace for each of these tasks, which lasts so long.
fn name_tasks(
    alloc: Global,
    catalogue: &mut Catalogue,
    tasks: &[(&str, u32)],
) -> Option<Vec<NamedTrace>> {
    let mut traces = Vec::new(alloc);
    for (task, time) in tasks {
        traces
            .push(name_trace(alloc, catalogue, task, *time)?)
            .ok()?;
    }
    Some(traces)
}

/// Makes a book of a trace for each of these tasks, which lasts so long. The task `c` is known
/// before and has no trace.
pub(crate) fn book_of_tasks(alloc: Global, tasks: &[(&str, u32)]) -> Option<KeptBook> {
    let mut catalogue = Catalogue::new(alloc);
    let _not_kept = name_trace(alloc, &mut catalogue, "c", 9)?;
    let traces = name_tasks(alloc, &mut catalogue, tasks)?;
    book_of(alloc, catalogue, traces)
}

/// Names a trace for each latency, each of a task of its own.
fn name_latencies(
    alloc: Global,
    catalogue: &mut Catalogue,
    latencies: &[u32],
) -> Option<Vec<NamedTrace>> {
    let mut traces = Vec::new(alloc);
    for (index, latency) in latencies.iter().enumerate() {
        let task = format!(in alloc; "t{index}").ok()?;
        traces
            .push(name_trace(alloc, catalogue, &task, *latency)?)
            .ok()?;
    }
    Some(traces)
}

/// Makes a book of a trace for each latency. The segment of a trace has the number of its place.
pub(crate) fn book_of_latencies(alloc: Global, latencies: &[u32]) -> Option<KeptBook> {
    let mut catalogue = Catalogue::new(alloc);
    let traces = name_latencies(alloc, &mut catalogue, latencies)?;
    book_of(alloc, catalogue, traces)
}
