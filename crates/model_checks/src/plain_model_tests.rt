ghost use Rattle.std.specs.Prelude.{◌≡◌, ◌≤◌, length, IfOk};
ghost use Rattle.trace_types.specs.SegmentLists.{NamesDiffer, JoinInTasks};
ghost use Rattle.trace_types.specs.Segments.{name_of, task_of, start_of, end_of};

use crate::plain::{PlainModel, plain_model};
use crate::plain_pair::PlainPair;
use crate::plain_pair_list::PlainPairList;
use std::alloc::{AllocError, Global};
use std::test::Fail;
use trace_types::{Segment, SegmentList, Text, Trace};

/// A start and a length, in nanoseconds.
type Times = (i32, u16);

fn segment(alloc: Global, task: &str, times: Times) -> Result<Segment, AllocError>
    ensures { IfOk result (λ s. s.task ≡ task.now) }
{
    let (start, length) = times;
    Ok(Segment {
        task: Text::new(alloc, task)?,
        start_event: Text::new(alloc, "s")?,
        end_event: Text::new(alloc, "e")?,
        start: i64::from(start),
        end: i64::from(start) + i64::from(length),
        element: None,
    })
}

fn trace(alloc: Global, segments: Vec<Segment>) -> Result<Trace, AllocError>
    requires few { length segments.items ≤ 2 }
    requires differ { NamesDiffer name_of segments.items }
    requires join { JoinInTasks task_of start_of end_of segments.items }
    ensures { IfOk result (λ t. length t.segments ≤ 2) }
{
    Ok(Trace {
        request: Text::new(alloc, "r")?,
        day: 0,
        latency: 0,
        segments: SegmentList::of(segments),
    })
}

/// A trace with a segment of task `a`, of task `b`, or of each.
fn trace_of(alloc: Global, a: Option<Times>, b: Option<Times>) -> Result<Trace, AllocError>
    ensures { IfOk result (λ t. length t.segments ≤ 2) }
{
    match (a, b) {
        (Some(a), Some(b)) => trace(
            alloc,
            vec![in alloc; segment(alloc, "a", a)?, segment(alloc, "b", b)?]?,
        ),
        (Some(a), None) => trace(alloc, vec![in alloc; segment(alloc, "a", a)?]?),
        (None, Some(b)) => trace(alloc, vec![in alloc; segment(alloc, "b", b)?]?),
        (None, None) => trace(alloc, Vec::new(alloc)),
    }
}

/// The model of three traces.
fn model_of(
    alloc: Global,
    first: Trace,
    second: Trace,
    third: Trace,
) -> Result<PlainModel, AllocError>
    requires first { length first.segments ≤ 2 }
    requires second { length second.segments ≤ 2 }
    requires third { length third.segments ≤ 2 }
{
    let traces = vec![in alloc; first, second, third]?;
    plain_model(alloc, &traces)
}

/// A trace with two segments of one task, from 0 to 5 and from 5 to 9.
fn trace_of_one_task(alloc: Global) -> Result<Trace, AllocError>
    ensures { IfOk result (λ t. length t.segments ≤ 2) }
{
    let first = Segment {
        task: Text::new(alloc, "t")?,
        start_event: Text::new(alloc, "x")?,
        end_event: Text::new(alloc, "y")?,
        start: 0,
        end: 5,
        element: None,
    };
    let second = Segment {
        task: Text::new(alloc, "t")?,
        start_event: Text::new(alloc, "y")?,
        end_event: Text::new(alloc, "x")?,
        start: 5,
        end: 9,
        element: None,
    };
    trace(alloc, vec![in alloc; first, second]?)
}

/// The pairs as one text.
fn shown(alloc: Global, pairs: &[PlainPair]) -> Result<String, AllocError> {
    let mut text = String::new(alloc);
    for pair in pairs {
        for name in [&pair.first, &pair.second] {
            text.push_str(name.task.as_str())?;
            text.push_str(".")?;
            text.push_str(name.start.as_str())?;
            text.push_str(".")?;
            text.push_str(name.end.as_str())?;
            text.push_str(" ")?;
        }
    }
    Ok(text)
}

/// The model of three traces, each with these times of the tasks `a` and `b`.
fn model_of_times(alloc: Global, times: &ThreeTimes) -> Result<PlainModel, AllocError> {
    let first = trace_of(alloc, times[0].0, times[0].1)?;
    let second = trace_of(alloc, times[1].0, times[1].1)?;
    let third = trace_of(alloc, times[2].0, times[2].1)?;
    model_of(alloc, first, second, third)
}

/// Tells whether the pairs are these.
fn are_shown(alloc: Global, pairs: &[PlainPair], expected: &str) -> Result<bool, AllocError> {
    let text = shown(alloc, pairs)?;
    Ok(text.as_str() == expected)
}

/// Tells whether the model has so many names and tasks, these orders and these exclusions.
fn is_model(
    alloc: Global,
    model: &PlainModel,
    count: u32,
    hb: &str,
    mx: &str,
) -> Result<bool, AllocError> {
    Ok(
        model.names == count
            && model.tasks == count
            && are_shown(alloc, model.hb.items(), hb)?
            && are_shown(alloc, model.mx.items(), mx)?,
    )
}

/// The times of the tasks `a` and `b` in three traces.
type ThreeTimes = [(Option<Times>, Option<Times>); 3];

const A: Option<Times> = Some((0, 10));

#[test]
fn each_pair_stands_as_no_trace_refutes(rt: HostRuntime) -> Result<(), Fail> {
    let alloc = rt.alloc();
    let apart = (None, None);
    let touching = (A, Some((10, 20)));
    let opposite = (Some((5, 4)), Some((0, 5)));
    let overlapping = (A, Some((9, 11)));
    let instant = (Some((5, 0)), Some((5, 0)));
    let table: [(ThreeTimes, u32, &str, &str); 7] = [
        ([apart, apart, apart], 0, "", ""),
        ([touching, apart, apart], 2, "a.s.e b.s.e ", ""),
        ([touching, opposite, apart], 2, "", "a.s.e b.s.e "),
        ([touching, opposite, overlapping], 2, "", ""),
        ([instant, apart, instant], 2, "a.s.e b.s.e b.s.e a.s.e ", ""),
        ([(A, None), (None, A), apart], 2, "", ""),
        ([(None, A), opposite, apart], 2, "b.s.e a.s.e ", ""),
    ];
    for (times, count, hb, mx) in table {
        let model = model_of_times(alloc, &times)?;
        assert!(rt; is_model(alloc, &model, count, hb, mx)?);
    }
    Ok(())
}

/// The model of two traces of one task, and of one without segments.
fn model_of_one_task(alloc: Global) -> Result<PlainModel, AllocError> {
    let first = trace_of_one_task(alloc)?;
    let second = trace_of_one_task(alloc)?;
    let third = trace_of(alloc, None, None)?;
    model_of(alloc, first, second, third)
}

/// Counts the orders of a model, taken out of it and put into a list again.
fn count_orders(model: PlainModel) -> usize {
    PlainPairList::of(model.hb.into_items()).items().len()
}

#[test]
fn a_task_with_two_names_is_one_task(rt: HostRuntime) -> Result<(), Fail> {
    let alloc = rt.alloc();
    let model = model_of_one_task(alloc)?;
    assert_eq!(rt; model.names, 2);
    assert_eq!(rt; model.tasks, 1);
    assert!(rt; are_shown(alloc, model.hb.items(), "t.x.y t.y.x ")?);
    assert_eq!(rt; count_orders(model), 1);
    Ok(())
}
