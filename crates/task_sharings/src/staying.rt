ghost use Rattle.std.specs.Prelude.{◌≡◌, ◌↔◌, true, MatchOption};
ghost use Rattle.shared_elements.specs.Elements.{AreElementsOf, Handles};
ghost use Rattle.task_sharings.specs.inner.Stays.{IsEnd, IsStart, NeverHandles, Outlasts};
ghost use Rattle.trace_types.specs.Parts.{by_number};
ghost use Rattle.trace_types.specs.Pipelines.{RefutesPipe};

use refute_tests::laws::starts_early_tells;
use refute_tests::starts_early;
use trace_types::{NamedSegment, NamedTrace};

/// Tells whether the task handles the element in a segment.
fn handles(segment: &NamedSegment, task: u32, element: u32) -> bool
    ensures { (result ≡ true) ↔ Handles task element segment.now }
{
    segment.task == task && segment.element == Some(element)
}

/// Finds the index of the first segment in which the task handles the element.
fn start_of(trace: &NamedTrace, task: u32, element: u32) -> Option<usize>
    ensures { MatchOption result (NeverHandles trace.now task element)
        (IsStart trace.now task element) }
{
    let segments = trace.segments.items();
    'segments: for index in 0..segments.len() {
        if handles(&segments[index], task, element) {
            return Some(index);
        }
    }
    None
}

/// Finds the index of the last segment in which the task handles the element.
fn end_of(trace: &NamedTrace, task: u32, element: u32) -> Option<usize>
    ensures { MatchOption result (NeverHandles trace.now task element)
        (IsEnd trace.now task element) }
{
    let segments = trace.segments.items();
    let mut end = None;
    'segments: for index in 0..segments.len() {
        if handles(&segments[index], task, element) {
            end = Some(index);
        }
    }
    end
}

/// Tells whether the task has the element for longer than the grace.
fn outlasts(trace: &NamedTrace, task: u32, element: u32) -> bool
    ensures { (result ≡ true) ↔ Outlasts trace.now task element }
{
    // For the proof alone.
    starts_early_tells();
    let (Some(end), Some(start)) = (end_of(trace, task, element), start_of(trace, task, element))
    else {
        return false;
    };
    let segments = trace.segments.items();
    starts_early(&segments[end], &segments[start], trace.grace)
}

/// Tells whether the trace refutes that elements pass from a task to itself: it has one of them for
/// longer than the grace. These are the elements of the task.
pub(crate) fn refutes_itself(trace: &NamedTrace, task: u32, elements: &[u32]) -> bool
    requires { AreElementsOf trace.now task elements.now }
    ensures { (result ≡ true) ↔ RefutesPipe by_number task task trace.now }
{
    'elements: for index in 0..elements.len() {
        if outlasts(trace, task, elements[index]) {
            return true;
        }
    }
    false
}
