//! Traces whose two tasks share their elements.
ghost use Rattle.std.specs.Prelude.{◌≡◌, ◌+◌, ◌≤◌, ◌≤ℤ◌, Some};

use std::alloc::{AllocError, Global};
use trace_types::{NamedSegment, NamedSegmentList, NamedTrace, Text};

/// Makes a segment in which its task handles an element.
fn segment(name: u32, task: u32, element: u32, start: i64, end: i64) -> NamedSegment
    requires name { name ≤ 3 }
    requires task { task ≤ 1 }
    requires ordered { start ≤ℤ end }
    ensures name { result.name ≡ name }
    ensures task { result.task ≡ task }
    ensures element { result.element ≡ Some element }
    ensures start { result.start ≡ start }
    ensures end { result.end ≡ end }
{
    NamedSegment {
        name,
        task,
        element: Some(element),
        start,
        end,
    }
}

/// Makes a trace in which task 0 handles the elements 0 and 1 from 0 to 20, and task 1 does so in the
/// given order from a start over a middle to an end.
pub fn shared_trace(
    alloc: Global,
    order: (u32, u32),
    times: (i64, i64, i64),
    grace: u64,
) -> Result<NamedTrace, AllocError>
    requires elements { order.0 + order.1 ≡ 1 }
    requires first { times.0 ≤ℤ times.1 }
    requires second { times.1 ≤ℤ times.2 }
    requires grace { grace ≤ 1000000000 }
{
    let request = Text::new(alloc, "r1")?;
    let first = segment(0, 0, 0, 0, 10);
    let second = segment(1, 0, 1, 10, 20);
    let third = segment(2, 1, order.0, times.0, times.1);
    let fourth = segment(3, 1, order.1, times.1, times.2);
    let segments = Vec::from_array(alloc, [first, second, third, fourth])?;
    Ok(NamedTrace {
        request,
        day: 0,
        latency: 50,
        grace,
        segments: NamedSegmentList::of(segments),
    })
}
