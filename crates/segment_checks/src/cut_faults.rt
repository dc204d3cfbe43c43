//! Traces that are refused: their faults in order, the range of adjusted times, and the most events.
use crate::batches::Row;
use crate::cuts::{answer, cuts, refused};
use segment_cut::TraceFault;
use std::alloc::{AllocError, Global};
use std::process::Abort;
use std::test::Fail;
use std::thread::Threads;
use trace_types::LATEST_TIME;

#[test]
fn faults_come_in_their_order(rt: HostRuntime) -> Result<(), Fail> {
    let name = ("m", "a", "e", 0, None, None);
    let other = ("m", "b", "e", 0, None, None);
    let sends = ("m", "a", "s1", 0, Some("x"), None);
    let again = ("n", "a", "s2", 0, Some("x"), None);
    let receives = ("n", "b", "r1", 0, None, Some("x"));
    let twice = ("m", "b", "r2", 0, None, Some("x"));
    cuts(&rt, &[name, other], 0, 0, &[])?;
    refused(
        &rt,
        &[name, other, sends, again, name, other],
        TraceFault::RepeatedEvent { line: 5 },
    )?;
    refused(
        &rt,
        &[receives, twice, sends, again],
        TraceFault::RepeatedSend { line: 4 },
    )?;
    refused(
        &rt,
        &[sends, receives, twice],
        TraceFault::RepeatedRecv { line: 3 },
    )
}

/// Makes two messages between each of m, n and p, so that n and then p are each the latest time
/// ahead, or as much behind.
fn far(ahead: bool) -> [Row<'static>; 8] {
    let (here, there) = if ahead {
        (0, LATEST_TIME)
    } else {
        (LATEST_TIME, 0)
    };
    [
        ("m", "a", "1", here, Some("x"), None),
        ("n", "b", "1", there, None, Some("x")),
        ("n", "b", "2", there, Some("y"), None),
        ("m", "a", "2", here, None, Some("y")),
        ("n", "b", "3", here, Some("z"), None),
        ("p", "c", "1", there, None, Some("z")),
        ("p", "c", "2", there, Some("w"), None),
        ("n", "b", "4", here, None, Some("w")),
    ]
}

/// Cuts the trace of those lines with one more of p at this time, and finds its fault.
fn fault_at<R: Abort + AllocGlobal + Threads + Sync>(
    rt: &R,
    ahead: bool,
    time: u64,
) -> Result<Option<TraceFault>, Fail> {
    let [a, b, c, d, e, f, g, h] = far(ahead);
    let ninth = ("p", "d", "1", time, None, None);
    Ok(answer(rt, &[a, b, c, d, e, f, g, h, ninth])?.err())
}

#[test]
fn adjusted_times_have_a_range(rt: HostRuntime) -> Result<(), Fail> {
    // adjusted times at p: 0 - 2N, N - 1 - 2N and N - 2N, and then 1 + 2N and 0 + 2N
    let rows = [
        (true, 0, true),
        (true, LATEST_TIME - 1, true),
        (true, LATEST_TIME, false),
        (false, 1, true),
        (false, 0, false),
    ];
    for (ahead, time, is_out) in rows {
        assert!(rt; answer(&rt, &far(ahead))?.is_ok());
        let fault = TraceFault::ClockRange { line: 9 };
        let expected = if is_out { Some(fault) } else { None };
        assert_eq!(rt; fault_at(&rt, ahead, time)?, expected);
    }
    Ok(())
}

/// Makes a line for each name, all of one machine, task and time.
fn rows_of<'a>(alloc: Global, names: &'a [String]) -> Result<Vec<Row<'a>>, AllocError> {
    let mut rows = Vec::with_capacity(alloc, names.len())?;
    for name in names {
        rows.push(("m", "a", name.as_str(), 7, None, None))?;
    }
    Ok(rows)
}

/// Cuts a trace of these names, and finds its fault.
fn fault_of_names<R: Abort + AllocGlobal + Threads + Sync>(
    rt: &R,
    names: &[String],
) -> Result<Option<TraceFault>, Fail> {
    let rows = rows_of(rt.alloc(), names)?;
    Ok(answer(rt, &rows)?.err())
}

/// Makes this many names.
fn numbered_names(alloc: Global, count: u32) -> Result<Vec<String>, AllocError> {
    let mut names = Vec::new(alloc);
    for at in 0..count {
        names.push(format!(in alloc; "e{at}")?)?;
    }
    Ok(names)
}

/// Cuts a trace of so many names, and finds its fault.
fn fault_of_many<R: Abort + AllocGlobal + Threads + Sync>(
    rt: &R,
    count: u32,
) -> Result<Option<TraceFault>, Fail> {
    let names = numbered_names(rt.alloc(), count)?;
    fault_of_names(rt, &names)
}

#[test]
fn a_trace_has_at_most_4096_events(rt: HostRuntime) -> Result<(), Fail> {
    assert_eq!(rt; fault_of_many(&rt, 4096)?, None);
    let fault = TraceFault::TooManyEvents { count: 4097 };
    assert_eq!(rt; fault_of_many(&rt, 4097)?, Some(fault));
    Ok(())
}

#[test]
fn a_fault_has_a_reason_and_a_number(rt: HostRuntime) -> Result<(), Fail> {
    let rows = [
        (TraceFault::Memory, "out of memory", 0),
        (
            TraceFault::TooManyEvents { count: 4097 },
            "too many events",
            4097,
        ),
        (TraceFault::RepeatedEvent { line: 2 }, "repeated event", 2),
        (TraceFault::RepeatedSend { line: 3 }, "repeated send", 3),
        (TraceFault::RepeatedRecv { line: 4 }, "repeated receive", 4),
        (TraceFault::ClockRange { line: 5 }, "clock out of range", 5),
    ];
    for (fault, reason, number) in rows {
        assert_eq!(rt; fault.reason(), reason);
        assert_eq!(rt; fault.number(), number);
    }
    Ok(())
}
