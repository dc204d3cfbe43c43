use crate::rows::{Row, expect};
use span_types::SpanKind::{Consumer, Internal};
use std::test::Fail;

#[test]
fn entries_stand_by_trace_and_by_how_they_begin(rt: HostRuntime) -> Result<(), Fail> {
    let rows = [
        Row("t", "c", "a", Consumer, 1),
        Row("u", "a", "", Internal, 9),
        Row("t", "m", "x", Internal, 2),
        Row("t", "a", "", Internal, 7),
        Row("t", "b", "a", Internal, 8),
        Row("t", "b", "a", Internal, 8),
        Row("u", "b", "a", Internal, 9),
    ];
    expect(
        &rt,
        rt.alloc(),
        &rows,
        "6 spans, entries [3, 2, 0, 1], callers [None, None, None, None, Some(3), Some(1)], 1 missing",
    )
}

#[test]
fn faults_are_of_the_first_span(rt: HostRuntime) -> Result<(), Fail> {
    let repeated = [
        Row("t", "a", "", Internal, 1),
        Row("u", "a", "", Internal, 2),
        Row("t", "a", "", Internal, 1),
        Row("t", "a", "", Internal, 3),
    ];
    expect(&rt, rt.alloc(), &repeated, "RepeatedId { span: 3 }")?;
    let circle = [
        Row("t", "r", "", Internal, 1),
        Row("t", "c", "b", Internal, 1),
        Row("t", "a", "b", Internal, 1),
        Row("t", "b", "a", Internal, 1),
    ];
    expect(&rt, rt.alloc(), &circle, "Circle { span: 1 }")
}

#[test]
fn what_waits_for_nobody_is_in_no_circle(rt: HostRuntime) -> Result<(), Fail> {
    let rows = [
        Row("t", "a", "b", Consumer, 1),
        Row("t", "b", "a", Internal, 1),
    ];
    expect(
        &rt,
        rt.alloc(),
        &rows,
        "2 spans, entries [0], callers [None, Some(0)], 0 missing",
    )
}
