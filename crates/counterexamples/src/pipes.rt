ghost use Rattle.std.specs.Prelude.{◌≡◌, ◌↔◌, ◌<◌, ℕ, true, length, MatchOption};
ghost use Rattle.counterexamples.specs.inner.Ends.{SharesAt, TakesAt, TakesEarly, TakesEarlyAt};
ghost use Rattle.trace_types.specs.Parts.{by_number};
ghost use Rattle.trace_types.specs.Pipelines.{RefutesPipe, RefutesUnshared, TakesOutOfOrder};
ghost use Rattle.trace_types.specs.Pipelines.{TakesUnfinished};

use crate::elements::{end_of, start_of};
use refute_tests::starts_early;
use trace_types::NamedTrace;

/// Tells whether the task `to` starts on the element before `from` is done with it, by more than
/// the grace.
fn takes_early(trace: &NamedTrace, from: u32, to: u32, element: u32) -> bool
    ensures { (result ≡ true) ↔ TakesEarly trace.now from to element }
{
    let (Some(giver), Some(taker)) = (end_of(trace, from, element), start_of(trace, to, element))
    else {
        return false;
    };
    let segments = trace.segments.items();
    starts_early(&segments[giver], &segments[taker], trace.grace)
}

/// Tells whether `to` starts on the element of the segment at this index before `from` is done with
/// it.
fn takes_early_at(trace: &NamedTrace, from: u32, to: u32, index: usize) -> bool
    requires { index < length trace.now.segments }
    ensures { (result ≡ true) ↔ TakesEarlyAt trace.now from to index }
{
    let segment = &trace.segments.items()[index];
    let Some(element) = segment.element else {
        return false;
    };
    takes_early(trace, from, to, element)
}

/// Tells whether the task `to` starts on some element before `from` is done with it, by more than
/// the grace.
fn takes_unfinished(trace: &NamedTrace, from: u32, to: u32) -> bool
    ensures { (result ≡ true) ↔ TakesUnfinished by_number from to trace.now }
{
    'segments: for index in 0..trace.segments.items().len() {
        if takes_early_at(trace, from, to, index) {
            return true;
        }
    }
    false
}

/// Where the task `from` starts on an element at this index, finds the index at which `to` starts
/// on it.
fn taken_at(trace: &NamedTrace, from: u32, to: u32, index: usize) -> Option<usize>
    requires { index < length trace.now.segments }
    ensures { MatchOption result ((x : ℕ) → TakesAt trace.now from to index x → ⊥)
        (TakesAt trace.now from to index) }
{
    let element = trace.segments.items()[index].element?;
    if start_of(trace, from, element) != Some(index) {
        return None;
    }
    start_of(trace, to, element)
}

/// Tells whether the two tasks start on two elements in different orders. It asks, for each element
/// in the order of `from`, whether `to` started on one before it at a greater index.
fn takes_out_of_order(trace: &NamedTrace, from: u32, to: u32) -> bool
    ensures { (result ≡ true) ↔ TakesOutOfOrder by_number from to trace.now }
{
    let mut greatest = 0;
    'segments: for index in 0..trace.segments.items().len() {
        if let Some(taken) = taken_at(trace, from, to, index) {
            if taken < greatest {
                return true;
            }
            greatest = taken;
        }
    }
    false
}

/// Tells whether the trace refutes that the two tasks are a pipeline.
pub(crate) fn refutes_pipe(trace: &NamedTrace, from: u32, to: u32) -> bool
    ensures { (result ≡ true) ↔ RefutesPipe by_number from to trace.now }
{
    takes_unfinished(trace, from, to) || takes_out_of_order(trace, from, to)
}

/// Tells whether in the segment at this index the task `low` handles an element that `high` handles
/// too.
fn shares_at(trace: &NamedTrace, low: u32, high: u32, index: usize) -> bool
    requires { index < length trace.now.segments }
    ensures { (result ≡ true) ↔ SharesAt trace.now low high index }
{
    let segment = &trace.segments.items()[index];
    let Some(element) = segment.element else {
        return false;
    };
    segment.task == low && start_of(trace, high, element).is_some()
}

/// Tells whether the trace refutes that the two tasks share no element.
pub(crate) fn refutes_unshared(trace: &NamedTrace, low: u32, high: u32) -> bool
    ensures { (result ≡ true) ↔ RefutesUnshared by_number low high trace.now }
{
    'segments: for index in 0..trace.segments.items().len() {
        if shares_at(trace, low, high, index) {
            return true;
        }
    }
    false
}
