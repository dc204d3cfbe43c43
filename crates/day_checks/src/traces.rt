//! Traces of a day with few segments, and their sheets.
ghost use Rattle.std.specs.Prelude.{◌≡◌, ◌≢◌, ◌≤◌, ◌≤ℤ◌, [], ◌∷◌, length, IfOk, None};
ghost use Rattle.refute_tests.specs.Clearing.{HaveNamesBelow};
ghost use Rattle.day_partitions.specs.Books.{IsSheetOf};

use pipeline_tests::DaySheet;
use std::alloc::{AllocError, Global};
use trace_types::{NamedSegment, NamedSegmentList, NamedTrace, Text};

/// A word of which no bit is cleared.
pub(crate) const FULL: u64 = u64::MAX;
/// The last word of two names when a touching trace is kept.
pub(crate) const TOUCHED: u64 = 0xffff_ffff_ffff_fff5;
/// The last word of two names when a swapped trace is kept.
pub(crate) const SWAPPED: u64 = 0xffff_ffff_ffff_fff6;
/// The last word of two names when a touching and a swapped trace are kept.
pub(crate) const BOTH: u64 = 0xffff_ffff_ffff_fff4;

/// Makes a trace of the day without segments: it refutes nothing.
pub(crate) fn quiet(alloc: Global, day: u32) -> Result<NamedTrace, AllocError>
    ensures day { IfOk result (λ t. t.day ≡ day) }
    ensures segments { IfOk result (λ t. t.segments ≡ []) }
{
    let request = Text::new(alloc, "r1")?;
    Ok(NamedTrace {
        request,
        day,
        latency: 0,
        grace: 0,
        segments: NamedSegmentList::of(Vec::new(alloc)),
    })
}

/// Makes a segment that is alone in its task and has no element.
fn segment(name: u32, start: i64, end: i64) -> NamedSegment
    requires name { name ≤ 5 }
    requires ordered { start ≤ℤ end }
    ensures name { result.name ≡ name }
    ensures task { result.task ≡ name }
    ensures element { result.element ≡ None }
{
    NamedSegment {
        name,
        task: name,
        element: None,
        start,
        end,
    }
}

/// Makes a trace of the day with two such segments.
fn pair(
    alloc: Global,
    day: u32,
    first: NamedSegment,
    second: NamedSegment,
) -> Result<NamedTrace, AllocError>
    requires names { first.name ≢ second.name }
    requires tasks { first.task ≢ second.task }
    requires one { first.element ≡ None }
    requires other { second.element ≡ None }
    ensures day { IfOk result (λ t. t.day ≡ day) }
    ensures segments { IfOk result (λ t. t.segments ≡ first ∷ second ∷ []) }
{
    let request = Text::new(alloc, "r1")?;
    let segments = Vec::from_array(alloc, [first, second])?;
    Ok(NamedTrace {
        request,
        day,
        latency: 30,
        grace: 0,
        segments: NamedSegmentList::of(segments),
    })
}

/// Makes a trace of the day with two of six names, by the day's remainder by 8.
pub(crate) fn busy(alloc: Global, day: u32, names: u32) -> Result<NamedTrace, AllocError>
    requires { 6 ≤ names }
    ensures day { IfOk result (λ t. t.day ≡ day) }
    ensures named { IfOk result (HaveNamesBelow names) }
{
    let first = segment(day % 4, 0, 10);
    let second = segment(4 + day / 4 % 2, 10, 30);
    pair(alloc, day, first, second)
}

/// Makes a touching trace, in which segment 0 ends where segment 1 starts, or a swapped one, in which
/// segment 1 comes first.
pub(crate) fn trace_of(alloc: Global, day: u32, touching: bool) -> Result<NamedTrace, AllocError>
    ensures day { IfOk result (λ t. t.day ≡ day) }
    ensures named { IfOk result (HaveNamesBelow 2) }
{
    if touching {
        return pair(alloc, day, segment(0, 0, 10), segment(1, 10, 30));
    }
    pair(alloc, day, segment(1, 0, 5), segment(0, 5, 9))
}

/// Makes the sheet of one trace.
pub(crate) fn sheet_of(alloc: Global, trace: NamedTrace, names: u32) -> Result<DaySheet, AllocError>
    requires few { names ≤ 512 }
    requires named { HaveNamesBelow names trace }
    ensures sheet { IfOk result (λ d. IsSheetOf names trace.day d) }
    ensures one { IfOk result (λ d. length d.traces ≡ 1) }
{
    let traces = Vec::from_array(alloc, [trace])?;
    DaySheet::plain(alloc, traces, names)
}

/// Makes the sheet of one touching or swapped trace.
pub(crate) fn day_sheet(alloc: Global, day: u32, touching: bool) -> Result<DaySheet, AllocError>
    ensures sheet { IfOk result (IsSheetOf 2 day) }
    ensures one { IfOk result (λ d. length d.traces ≡ 1) }
{
    let trace = trace_of(alloc, day, touching)?;
    sheet_of(alloc, trace, 2)
}
