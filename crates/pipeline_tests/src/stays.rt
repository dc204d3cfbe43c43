ghost use Rattle.std.specs.Prelude.{◌≡◌, ◌+◌, length, MatchOption, OnOk};
ghost use Rattle.pipeline_tests.specs.inner.Stays.{AreStays, IsKnown, IsNew};
ghost use Rattle.trace_types.specs.Parts.{by_number};
ghost use Rattle.trace_types.specs.Pipelines.{HandlesAt};

use std::alloc::AllocError;
use trace_types::{NamedSegment, NamedTrace};

/// Where one task handles one data element: from a first segment to a last one.
#[derive(Clone, Copy)]
pub(crate) struct Stay {
    /// The task.
    pub task: u32,
    /// The element.
    pub element: u32,
    /// The index of the first segment in which the task handles the element.
    pub begin: usize,
    /// That segment.
    pub first: NamedSegment,
    /// The index of the last such segment.
    pub end: usize,
    /// That segment.
    pub last: NamedSegment,
}

/// Finds the stay so far of the task and the element of a segment. The segments of a task stand
/// together, so its stays so far are the last ones.
fn earlier_stay(
    trace: &NamedTrace,
    index: usize,
    segment: NamedSegment,
    element: u32,
    stays: &[Stay],
) -> Option<usize>
    requires handles { HandlesAt by_number trace.now segment.task element index segment }
    requires stays { AreStays trace.now index stays.now }
    ensures { MatchOption result (IsNew trace.now index segment.task element)
        (λ k. IsKnown stays.now segment.task element k) }
{
    let mut after = stays.len();
    while after > 0 {
        let at = after - 1;
        if stays[at].task != segment.task {
            return None;
        }
        if stays[at].element == element {
            return Some(at);
        }
        after = at;
    }
    None
}

/// Notes that a task handles an element in this segment: its stay so far goes on, or a stay begins.
fn note_element(
    trace: &NamedTrace,
    index: usize,
    segment: NamedSegment,
    element: u32,
    stays: &mut Vec<Stay>,
) -> Result<(), AllocError>
    requires handles { HandlesAt by_number trace.now segment.task element index segment }
    requires stays { AreStays trace.now index stays.old.items }
    ensures { OnOk result (AreStays trace.now (index + 1) stays.new.items) }
{
    if let Some(known) = earlier_stay(trace, index, segment, element, stays) {
        let stay = &mut stays[known];
        stay.end = index;
        stay.last = segment;
        return Ok(());
    }
    stays.push(Stay {
        task: segment.task,
        element,
        begin: index,
        first: segment,
        end: index,
        last: segment,
    })?;
    Ok(())
}

/// Finds the stays of all tasks and elements of a trace, each once, in the order in which they
/// begin. What the list held is dropped, and its memory serves again. The only error is that memory
/// ran out.
pub(crate) fn find_stays(trace: &NamedTrace, stays: &mut Vec<Stay>) -> Result<(), AllocError>
    ensures { OnOk result (AreStays trace.now (length trace.now.segments) stays.new.items) }
{
    stays.clear();
    for (index, segment) in trace.segments.items().iter().enumerate() {
        if let Some(element) = segment.element {
            note_element(trace, index, *segment, element, stays)?;
        }
    }
    Ok(())
}
