//! Whether times refute relations.
ghost use Rattle.std.specs.Prelude.{◌≡◌, ◌≢◌, ◌+◌, ◌≤◌, ◌≤ℤ◌, ◌∷◌, [], None, IfOk};

use counterexamples::refutes;
use hypothesis_index::Relation;
use recording_checks::shared_trace;
use std::alloc::{AllocError, Global};
use std::test::Fail;
use trace_types::{NamedSegment, NamedSegmentList, NamedTrace, Text};

/// The relations between the names 0 and 1.
pub(crate) const NAMES: [Relation; 4] = [
    Relation::Before {
        first: 0,
        second: 1,
    },
    Relation::Before {
        first: 1,
        second: 0,
    },
    Relation::Exclusive { low: 0, high: 1 },
    Relation::Apart { low: 0, high: 1 },
];

/// The relations between the tasks 0 and 1.
pub(crate) const TASKS: [Relation; 3] = [
    Relation::Pipe { from: 0, to: 1 },
    Relation::Pipe { from: 1, to: 0 },
    Relation::Unshared { low: 0, high: 1 },
];

/// A segment that is alone in its task and has no element.
pub(crate) fn lone(name: u32, start: i64, end: i64) -> NamedSegment
    requires name { name ≤ 1 }
    requires ordered { start ≤ℤ end }
    ensures name { result.name ≡ name }
    ensures task { result.task ≡ name }
    ensures element { result.element ≡ None }
{
    NamedSegment {
        name,
        task: name,
        element: None,
        start,
        end,
    }
}

/// A trace of the day with two such segments.
pub(crate) fn pair(
    alloc: Global,
    request: &str,
    day: u32,
    first: NamedSegment,
    second: NamedSegment,
    grace: u64,
) -> Result<NamedTrace, AllocError>
    requires names { first.name ≢ second.name }
    requires tasks { first.task ≢ second.task }
    requires one { first.element ≡ None }
    requires other { second.element ≡ None }
    requires grace { grace ≤ 1000000000 }
    ensures day { IfOk result (λ t. t.day ≡ day) }
    ensures segments { IfOk result (λ t. t.segments ≡ first ∷ second ∷ []) }
{
    let request = Text::new(alloc, request)?;
    let segments = Vec::from_array(alloc, [first, second])?;
    Ok(NamedTrace {
        request,
        day,
        latency: 30,
        grace,
        segments: NamedSegmentList::of(segments),
    })
}

/// Tells which relations of the names 0 and 1 the trace refutes, and whether it refutes one of a name
/// that it lacks or of tasks.
fn names_refuted(trace: &NamedTrace) -> (bool, bool, bool, bool, bool) {
    let unknown = Relation::Apart { low: 0, high: 2 };
    (
        refutes(trace, NAMES[0]),
        refutes(trace, NAMES[1]),
        refutes(trace, NAMES[2]),
        refutes(trace, NAMES[3]),
        refutes(trace, unknown) || refutes(trace, TASKS[2]),
    )
}

/// Tells the same of a trace of two such segments.
fn pair_refuted(
    alloc: Global,
    first: NamedSegment,
    second: NamedSegment,
    grace: u64,
) -> Result<(bool, bool, bool, bool, bool), AllocError>
    requires names { first.name ≢ second.name }
    requires tasks { first.task ≢ second.task }
    requires one { first.element ≡ None }
    requires other { second.element ≡ None }
    requires grace { grace ≤ 1000000000 }
{
    let trace = pair(alloc, "r1", 0, first, second, grace)?;
    Ok(names_refuted(&trace))
}

#[test]
fn times_refute_relations_of_names(rt: HostRuntime) -> Result<(), Fail> {
    let alloc = rt.alloc();
    let follows = pair_refuted(alloc, lone(0, 0, 10), lone(1, 10, 30), 0)?;
    assert_eq!(rt; follows, (false, true, false, true, false));
    let precedes = pair_refuted(alloc, lone(1, 0, 5), lone(0, 5, 9), 0)?;
    assert_eq!(rt; precedes, (true, false, false, true, false));
    let overlaps = pair_refuted(alloc, lone(0, 0, 10), lone(1, 9, 20), 0)?;
    assert_eq!(rt; overlaps, (true, true, true, true, false));
    let graced = pair_refuted(alloc, lone(0, 0, 10), lone(1, 9, 20), 1)?;
    assert_eq!(rt; graced, (false, true, false, true, false));
    Ok(())
}

/// Tells which relations of the tasks 0 and 1 a trace refutes whose two tasks share their elements.
fn tasks_refuted(
    alloc: Global,
    order: (u32, u32),
    times: (i64, i64, i64),
    grace: u64,
) -> Result<(bool, bool, bool), AllocError>
    requires elements { order.0 + order.1 ≡ 1 }
    requires first { times.0 ≤ℤ times.1 }
    requires second { times.1 ≤ℤ times.2 }
    requires grace { grace ≤ 1000000000 }
{
    let trace = shared_trace(alloc, order, times, grace)?;
    Ok((
        refutes(&trace, TASKS[0]),
        refutes(&trace, TASKS[1]),
        refutes(&trace, TASKS[2]),
    ))
}

#[test]
fn elements_refute_relations_of_tasks(rt: HostRuntime) -> Result<(), Fail> {
    let alloc = rt.alloc();
    let follows = tasks_refuted(alloc, (0, 1), (10, 20, 30), 0)?;
    assert_eq!(rt; follows, (false, true, true));
    let turned = tasks_refuted(alloc, (1, 0), (20, 30, 40), 0)?;
    assert_eq!(rt; turned, (true, true, true));
    let overlaps = tasks_refuted(alloc, (0, 1), (10, 19, 30), 0)?;
    assert_eq!(rt; overlaps, (true, true, true));
    let graced = tasks_refuted(alloc, (0, 1), (10, 19, 30), 1)?;
    assert_eq!(rt; graced, (false, true, true));
    Ok(())
}
