//! Traces that are cut, and their segments compared with those that are expected.
use crate::batches::{Row, gather_rows};
use event_table::GatheredEvents;
use segment_cut::{CutTrace, TraceFault, cut, element_of};
use std::alloc::AllocError;
use std::process::Abort;
use std::test::Fail;
use std::thread::Threads;
use trace_types::{Segment, Text, Trace};

/// A segment: its task, start event and end event, its start and end, and its element.
pub(crate) type Cut = (
    &'static str,
    &'static str,
    &'static str,
    i64,
    i64,
    Option<&'static str>,
);

/// Cuts the only trace of a batch.
fn cut_only<'a, R: Abort + AllocGlobal>(
    rt: &R,
    gathered: &'a GatheredEvents,
) -> Result<Result<CutTrace<'a>, TraceFault>, Fail> {
    assert!(rt; gathered.len() == 1);
    let raw = gathered.trace(0);
    assert!(rt; raw.len() < 5000);
    assert!(rt; raw.is_timely());
    Ok(cut(rt.alloc(), &raw))
}

/// Compares what a trace tells of itself with its copy.
fn assert_copied(rt: &impl Abort, cut: &CutTrace<'_>, trace: &Trace) {
    assert!(rt; cut.request().as_str() == trace.request.as_str());
    assert_eq!(rt; cut.day(), trace.day);
    assert_eq!(rt; cut.latency(), trace.latency);
    assert_eq!(rt; cut.segments().len(), trace.segments.items().len());
}

/// Copies a trace, and compares what it tells of itself with the copy.
fn copy_cut(rt: &(impl Abort + AllocGlobal), cut: &CutTrace<'_>) -> Result<Trace, AllocError> {
    let trace = cut.copy(rt.alloc())?;
    assert_copied(rt, cut, &trace);
    Ok(trace)
}

/// Copies what a cut gave.
fn copy_answer(
    rt: &(impl Abort + AllocGlobal),
    cut: Result<CutTrace<'_>, TraceFault>,
) -> Result<Result<Trace, TraceFault>, Fail> {
    match cut {
        Ok(cut) => Ok(Ok(copy_cut(rt, &cut)?)),
        Err(fault) => Ok(Err(fault)),
    }
}

/// Cuts the only trace of a batch, and copies what that gives.
fn answer_of<R: Abort + AllocGlobal>(
    rt: &R,
    gathered: &GatheredEvents,
) -> Result<Result<Trace, TraceFault>, Fail> {
    copy_answer(rt, cut_only(rt, gathered)?)
}

/// Cuts the trace of these lines.
pub(crate) fn answer<R: Abort + AllocGlobal + Threads + Sync>(
    rt: &R,
    rows: &[Row],
) -> Result<Result<Trace, TraceFault>, Fail> {
    let gathered = gather_rows(rt, rows)?;
    answer_of(rt, &gathered)
}

/// Compares a text.
pub(crate) fn is(text: &Text, expected: &str) -> bool {
    text.as_str() == expected
}

/// Compares the element of an event's name, and a copy of it.
fn is_element(name: &Text, copy: &Option<Text>, expected: Option<&str>) -> bool {
    match (element_of(name.as_str()), copy, expected) {
        (Some(element), Some(copy), Some(expected)) => element == expected && is(copy, expected),
        (None, None, None) => true,
        _ => false,
    }
}

/// Compares a segment with the one that is expected.
fn is_cut(segment: &Segment, cut: &Cut) -> bool {
    is(&segment.task, cut.0)
        && is(&segment.start_event, cut.1)
        && is(&segment.end_event, cut.2)
        && segment.start == cut.3
        && segment.end == cut.4
        && is_element(&segment.start_event, &segment.element, cut.5)
}

/// Asserts that a trace has these segments, with this day and latency.
fn assert_cut(rt: &impl Abort, trace: &Trace, day: u32, latency: u64, expected: &[Cut]) {
    assert!(rt; is(&trace.request, "r1"));
    assert_eq!(rt; trace.day, day);
    assert_eq!(rt; trace.latency, latency);
    let segments = trace.segments.items();
    assert_eq!(rt; segments.len(), expected.len());
    for at in 0..segments.len() {
        assert!(rt;
            at < expected.len() && is_cut(&segments[at], &expected[at]),
            "at {at}"
        );
    }
}

/// Asserts that these lines are cut into these segments, with this day and latency.
pub(crate) fn cuts<R: Abort + AllocGlobal + Threads + Sync>(
    rt: &R,
    rows: &[Row],
    day: u32,
    latency: u64,
    expected: &[Cut],
) -> Result<(), Fail> {
    match answer(rt, rows)? {
        Ok(trace) => assert_cut(rt, &trace, day, latency, expected),
        Err(_fault) => assert!(rt; false, "it is refused"),
    }
    Ok(())
}

/// Asserts that these lines have this fault.
pub(crate) fn refused<R: Abort + AllocGlobal + Threads + Sync>(
    rt: &R,
    rows: &[Row],
    expected: TraceFault,
) -> Result<(), Fail> {
    assert_eq!(rt; answer(rt, rows)?.err(), Some(expected));
    Ok(())
}
