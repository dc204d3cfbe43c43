//! Traces of two segments of two tasks.
ghost use Rattle.std.specs.Prelude.{◌≡◌, ◌≢◌, ◌^◌, ◌<◌, ◌≤◌, ◌≤ℤ◌, All, length, IfOk, None};
ghost use Rattle.refute_tests.specs.Clearing.{HaveNamesBelow};

use std::alloc::{AllocError, Global};
use trace_types::{NamedSegment, NamedSegmentList, NamedTrace, Text};

/// The word of the pairs of two names when a touching trace was recorded.
pub(crate) const TOUCHED: u64 = 0xffff_ffff_ffff_fff5;
/// The word of the pairs of two names when a touching and a swapped trace were recorded.
pub(crate) const BOTH: u64 = 0xffff_ffff_ffff_fff4;

/// Makes a segment that is alone in its task and has no element.
fn segment(name: u32, start: i64, end: i64) -> NamedSegment
    requires name { name ≤ 1 }
    requires ordered { start ≤ℤ end }
    ensures name { result.name ≡ name }
    ensures task { result.task ≡ name }
    ensures element { result.element ≡ None }
{
    NamedSegment {
        name,
        task: name,
        element: None,
        start,
        end,
    }
}

/// Makes a trace of two such segments, with a request for each number.
fn pair(
    alloc: Global,
    number: u32,
    first: NamedSegment,
    second: NamedSegment,
) -> Result<NamedTrace, AllocError>
    requires names { first.name ≢ second.name }
    requires below { (first.name < 2) × (second.name < 2) }
    requires tasks { first.task ≢ second.task }
    requires one { first.element ≡ None }
    requires other { second.element ≡ None }
    ensures { IfOk result (HaveNamesBelow 2) }
{
    let name = format!(in alloc; "r{number}")?;
    let request = Text::new(alloc, name.as_str())?;
    let segments = Vec::from_array(alloc, [first, second])?;
    Ok(NamedTrace {
        request,
        day: 0,
        latency: 30,
        grace: 0,
        segments: NamedSegmentList::of(segments),
    })
}

/// Makes a trace in which the segment 0 ends where the segment 1 starts: it refutes two relations.
pub(crate) fn touching(alloc: Global, number: u32) -> Result<NamedTrace, AllocError>
    ensures { IfOk result (HaveNamesBelow 2) }
{
    pair(alloc, number, segment(0, 0, 10), segment(1, 10, 30))
}

/// Makes a trace in which the segment 1 comes first: it refutes two relations, one of them another.
pub(crate) fn swapped(alloc: Global, number: u32) -> Result<NamedTrace, AllocError>
    ensures { IfOk result (HaveNamesBelow 2) }
{
    pair(alloc, number, segment(1, 0, 5), segment(0, 5, 9))
}

/// Makes a trace in which the segment 0 ends a nanosecond after the segment 1 starts.
pub(crate) fn overlapping(alloc: Global, number: u32) -> Result<NamedTrace, AllocError>
    ensures { IfOk result (HaveNamesBelow 2) }
{
    pair(alloc, number, segment(0, 0, 10), segment(1, 9, 20))
}

/// Makes a touching trace, or a swapped one.
fn one_of(alloc: Global, number: u32, touch: bool) -> Result<NamedTrace, AllocError>
    ensures { IfOk result (HaveNamesBelow 2) }
{
    if touch {
        touching(alloc, number)
    } else {
        swapped(alloc, number)
    }
}

/// Makes so many traces, of which so many first ones are touching and the others are swapped.
pub(crate) fn day_of(alloc: Global, touch: u32, count: u32) -> Result<Vec<NamedTrace>, AllocError>
    ensures names { IfOk result (λ v. All (HaveNamesBelow 2) v.items) }
    ensures few { IfOk result (λ v. length v.items < 2 ^ 32) }
{
    let mut traces = Vec::with_capacity(alloc, count as usize)?;
    for k in 0..count {
        let trace = one_of(alloc, k, k < touch)?;
        traces.push(trace)?;
    }
    Ok(traces)
}
