//! Clock offsets of the machines of worked traces, and messages that are refused.
use crate::batches::{Row, gather_rows};
use clock_offsets::{ClockFault, offsets};
use event_table::GatheredEvents;
use std::process::Abort;
use std::test::Fail;
use std::thread::Threads;

/// Makes a line that sends a message.
fn sends(machine: &'static str, time: u32, message: &'static str) -> Row<'static> {
    (machine, "t", "e", u64::from(time), Some(message), None)
}

/// Makes a line that receives a message.
fn receives(machine: &'static str, time: u32, message: &'static str) -> Row<'static> {
    (machine, "t", "e", u64::from(time), None, Some(message))
}

/// Makes a line that does neither.
fn alone(machine: &'static str, time: u32) -> Row<'static> {
    (machine, "t", "e", u64::from(time), None, None)
}

/// Finds the offsets of the only trace of a batch, or its fault.
fn offsets_of<R: Abort + AllocGlobal>(
    rt: &R,
    gathered: &GatheredEvents,
    count: usize,
) -> Result<Result<Vec<i128>, ClockFault>, Fail> {
    assert!(rt; gathered.len() == 1);
    let trace = gathered.trace(0);
    assert!(rt; trace.len() == count && count < 5000);
    assert!(rt; trace.is_timely());
    Ok(offsets(rt.alloc(), &trace))
}

/// Finds the offsets of the trace of these lines, or its fault.
fn answer<R: Abort + AllocGlobal + Threads + Sync>(
    rt: &R,
    rows: &[Row],
) -> Result<Result<Vec<i128>, ClockFault>, Fail> {
    let gathered = gather_rows(rt, rows)?;
    offsets_of(rt, &gathered, rows.len())
}

/// Asserts that these lines have these offsets.
fn has<R: Abort + AllocGlobal + Threads + Sync>(
    rt: &R,
    rows: &[Row],
    expected: &[i128],
) -> Result<(), Fail> {
    let found = answer(rt, rows)?;
    assert!(rt; found.is_ok());
    if let Ok(found) = found {
        assert_eq!(rt; found.as_slice(), expected);
    }
    Ok(())
}

/// Asserts that these lines have this fault.
fn refused<R: Abort + AllocGlobal + Threads + Sync>(
    rt: &R,
    rows: &[Row],
    expected: ClockFault,
) -> Result<(), Fail> {
    assert_eq!(rt; answer(rt, rows)?.err(), Some(expected));
    Ok(())
}

#[test]
fn offsets_of_two_machines(rt: HostRuntime) -> Result<(), Fail> {
    // f and g, the least there and back, and the offset
    for (there, back, offset) in [(130, -90, 110), (5, 2, 1), (-4, 1, -3), (5000, 2000, 1500)] {
        let at = 10_000i64;
        let rows = [
            sends("m", 10_000, "x"),
            receives("n", (at + there) as u32, "x"),
            sends("n", 20_000, "y"),
            receives("m", (2 * at + back) as u32, "y"),
        ];
        has(&rt, &rows, &[0, offset, offset, 0])?;
    }
    Ok(())
}

#[test]
fn offsets_along_parents(rt: HostRuntime) -> Result<(), Fail> {
    let chain = [
        sends("c", 100, "q1"),
        receives("w", 1110, "q1"),
        sends("w", 1120, "q2"),
        receives("d", 50, "q2"),
        sends("d", 80, "p2"),
        receives("w", 1160, "p2"),
        sends("w", 1170, "p1"),
        receives("c", 180, "p1"),
        alone("l", 7),
    ];
    has(&rt, &chain, &[0, 1000, 1000, -75, -75, 1000, 1000, 0, 0])
}

#[test]
fn the_parent_has_the_least_name(rt: HostRuntime) -> Result<(), Fail> {
    // a and b both have depth 1 and are paired with z
    let claims = [
        sends("m", 0, "m1"),
        receives("b", 200, "m1"),
        sends("b", 200, "m2"),
        receives("m", 0, "m2"),
        sends("m", 0, "m3"),
        receives("a", 100, "m3"),
        sends("a", 100, "m4"),
        receives("m", 0, "m4"),
        sends("b", 200, "z1"),
        receives("z", 0, "z1"),
        sends("z", 0, "z2"),
        receives("b", 210, "z2"),
        sends("a", 100, "z3"),
        receives("z", 0, "z3"),
        sends("z", 0, "z4"),
        receives("a", 150, "z4"),
    ];
    has(
        &rt,
        &claims,
        &[
            0, 200, 200, 0, 0, 100, 100, 0, 200, -25, -25, 200, 100, -25, -25, 100,
        ],
    )
}

#[test]
fn messages_that_do_not_count(rt: HostRuntime) -> Result<(), Fail> {
    // one way alone, to oneself, never received, never sent
    has(&rt, &[sends("m", 0, "x"), receives("n", 90, "x")], &[0, 0])?;
    has(&rt, &[sends("m", 0, "x"), receives("m", 90, "x")], &[0, 0])?;
    has(&rt, &[sends("m", 0, "x"), alone("n", 90)], &[0, 0])?;
    has(&rt, &[alone("m", 0), receives("n", 90, "x")], &[0, 0])
}

#[test]
fn a_message_twice_is_refused(rt: HostRuntime) -> Result<(), Fail> {
    let sent = [
        alone("m", 0),
        sends("m", 0, "x"),
        sends("n", 1, "x"),
        sends("n", 2, "x"),
    ];
    refused(&rt, &sent, ClockFault::RepeatedSend { line: 3 })?;
    let received = [alone("m", 0), receives("m", 0, "x"), receives("n", 1, "x")];
    refused(&rt, &received, ClockFault::RepeatedRecv { line: 3 })?;
    let both = [
        receives("m", 0, "x"),
        receives("m", 0, "x"),
        sends("m", 0, "y"),
        sends("n", 1, "y"),
    ];
    refused(&rt, &both, ClockFault::RepeatedSend { line: 4 })
}
