//! Traces that are drawn: chains of segments, a chain a task.
ghost use Rattle.std.specs.Prelude.{◌≡◌, ◌<◌, ◌≤◌, IfOk, IsTrue, None};
ghost use Rattle.recording_checks.specs.inner.Drawn.{AreDrawn, Follows};

use std::alloc::{AllocError, Global};
use trace_types::{NamedSegment, NamedSegmentList, NamedTrace, Text};

/// What the segments of a drawn trace are like.
#[derive(Clone, Copy)]
pub(crate) struct Kind {
    /// At most how many segments.
    pub(crate) count: u32,
    /// Each name is at most this much above the one before.
    pub(crate) gap: u64,
    /// No time is before this one.
    pub(crate) base: i64,
    /// How far the times of a segment lie apart at most.
    pub(crate) span: u64,
    /// The grace of the trace, in nanoseconds.
    pub(crate) grace: u64,
}

/// Draws the next number.
pub(crate) fn next(seed: u64) -> u64 {
    seed.wrapping_mul(6_364_136_223_846_793_005)
        .wrapping_add(1_442_695_040_888_963_407)
}

/// Makes a segment between two times.
fn between(name: u32, task: u32, start: i64, length: u64) -> NamedSegment
    requires name { name < 512 }
    requires task { task < 64 }
    ensures { result.element ≡ None }
{
    let end = start.saturating_add_unsigned(length);
    NamedSegment {
        name,
        task,
        element: None,
        start: start.min(end),
        end,
    }
}

/// Tells whether a segment may stand behind another.
fn may_follow(last: &NamedSegment, segment: &NamedSegment) -> bool
    ensures { IsTrue result → Follows last.now segment.now }
{
    let joins = last.task == segment.task && last.end == segment.start;
    last.name < segment.name && (last.task < segment.task || joins)
}

/// Appends a segment where it may stand behind the last one.
fn push_next(segments: &mut Vec<NamedSegment>, segment: NamedSegment) -> Result<(), AllocError>
    requires drawn { AreDrawn segments.old.items }
    requires plain { segment.element ≡ None }
    ensures { AreDrawn segments.new.items }
{
    let follows = match segments.last() {
        Some(last) => may_follow(last, &segment),
        None => true,
    };
    if follows {
        segments.push(segment)?;
    }
    Ok(())
}

/// Draws when a segment of a task starts: where the last one of the task ends, or anywhere.
fn draw_start(segments: &[NamedSegment], kind: &Kind, task: u32, drawn: u64) -> i64 {
    match segments.last() {
        Some(last) if last.task == task => last.end,
        _ => kind
            .base
            .saturating_add_unsigned((drawn >> 16) % kind.span.max(1)),
    }
}

/// Draws segments: at most eight chains of eight and more, or 64 tasks of one and more.
fn draw_segments(alloc: Global, kind: &Kind, seed: u64) -> Result<Vec<NamedSegment>, AllocError>
    ensures { IfOk result (λ segments. AreDrawn segments.items) }
{
    let mut segments = Vec::new(alloc);
    let mut draws = seed;
    let mut name = 0u64;
    for index in 0..kind.count {
        draws = next(draws);
        name = name.saturating_add(1 + (draws >> 33) % kind.gap.max(1));
        draws = next(draws);
        let task = index / (kind.count / 64 + 1);
        let start = draw_start(&segments, kind, task, draws);
        draws = next(draws);
        let length = (draws >> 16) % kind.span.max(1);
        if name <= 512 && task < 64 {
            push_next(
                &mut segments,
                between((name - 1) as u32, task, start, length),
            )?;
        }
    }
    Ok(segments)
}

/// Makes a trace of drawn segments.
fn trace_of(
    alloc: Global,
    segments: Vec<NamedSegment>,
    grace: u64,
) -> Result<NamedTrace, AllocError>
    requires drawn { AreDrawn segments.items }
    requires grace { grace ≤ 1000000000 }
{
    let request = Text::new(alloc, "r1")?;
    Ok(NamedTrace {
        request,
        day: 0,
        latency: 0,
        grace,
        segments: NamedSegmentList::of(segments),
    })
}

/// Draws a trace.
pub(crate) fn draw_trace(alloc: Global, kind: &Kind, seed: u64) -> Result<NamedTrace, AllocError> {
    let segments = draw_segments(alloc, kind, seed)?;
    trace_of(alloc, segments, kind.grace.min(1_000_000_000))
}
