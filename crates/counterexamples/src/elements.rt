ghost use Rattle.std.specs.Prelude.{◌≡◌, ◌↔◌, true, MatchOption};
ghost use Rattle.counterexamples.specs.inner.Ends.{Handles, IsEnd, IsStart, NeverHandles};

use trace_types::{NamedSegment, NamedTrace};

/// Tells whether the task handles the element in this segment.
fn handles(segment: &NamedSegment, task: u32, element: u32) -> bool
    ensures { (result ≡ true) ↔ Handles task element segment.now }
{
    segment.task == task && segment.element == Some(element)
}

/// Finds the index of the first segment in which the task handles the element.
pub(crate) fn start_of(trace: &NamedTrace, task: u32, element: u32) -> Option<usize>
    ensures { MatchOption result (NeverHandles trace.now task element)
        (IsStart trace.now task element) }
{
    let segments = trace.segments.items();
    'segments: for index in 0..segments.len() {
        if handles(&segments[index], task, element) {
            return Some(index);
        }
    }
    None
}

/// Finds the index of the last segment in which the task handles the element.
pub(crate) fn end_of(trace: &NamedTrace, task: u32, element: u32) -> Option<usize>
    ensures { MatchOption result (NeverHandles trace.now task element)
        (IsEnd trace.now task element) }
{
    let segments = trace.segments.items();
    let mut end = None;
    'segments: for index in 0..segments.len() {
        if handles(&segments[index], task, element) {
            end = Some(index);
        }
    }
    end
}
