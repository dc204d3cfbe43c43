//! Few texts and many texts in a trace, which are told apart in different ways.
use crate::batches::Row;
use crate::cuts::{answer, is};
use segment_cut::TraceFault;
use std::alloc::{AllocError, Global};
use std::process::Abort;
use std::test::Fail;
use std::thread::Threads;
use trace_types::Segment;

/// Makes this many names.
fn make_names(alloc: Global, count: u32) -> Result<Vec<String>, AllocError> {
    let mut names = Vec::new(alloc);
    for at in 0..count {
        names.push(format!(in alloc; "name {at}")?)?;
    }
    Ok(names)
}

/// Makes two lines for each name, of a task of that name, on one machine and by rising time. The
/// first of them sends a message of that name, and the second receives it.
fn pairs_of<'a>(alloc: Global, names: &'a [String]) -> Result<Vec<Row<'a>>, AllocError> {
    let mut rows = Vec::new(alloc);
    for name in names {
        let task = name.as_str();
        let time = rows.len() as u64;
        rows.push(("m", task, "sent", time, Some(task), None))?;
        rows.push(("m", task, "received", time, None, Some(task)))?;
    }
    Ok(rows)
}

/// Cuts these lines with one more after them, and finds the fault.
fn fault_with<R: Abort + AllocGlobal + Threads + Sync>(
    rt: &R,
    names: &[String],
    more: Row,
) -> Result<Option<TraceFault>, Fail> {
    let mut rows = pairs_of(rt.alloc(), names)?;
    rows.push(more)?;
    Ok(answer(rt, &rows)?.err())
}

/// Tells whether the lines of these names are cut into a segment each, of the task of that name.
fn are_told_apart<R: Abort + AllocGlobal + Threads + Sync>(
    rt: &R,
    names: &[String],
) -> Result<bool, Fail> {
    let rows = pairs_of(rt.alloc(), names)?;
    Ok(match answer(rt, &rows)? {
        Ok(trace) => are_tasks(trace.segments.items(), names),
        Err(_fault) => false,
    })
}

/// Tells whether the segments are each of the task of one of these names, in their order.
fn are_tasks(segments: &[Segment], names: &[String]) -> bool {
    segments.len() == names.len()
        && segments
            .iter()
            .zip(names)
            .all(|(s, name)| is(&s.task, name.as_str()))
}

/// Gives lines that repeat an event, a message that was sent and one that was received, and one
/// that repeats nothing, each with its fault at this line.
fn lines_after(line: u32) -> [(Row<'static>, Option<TraceFault>); 4] {
    [
        (
            ("m", "name 0", "sent", 0, None, None),
            Some(TraceFault::RepeatedEvent { line }),
        ),
        (
            ("n", "name 0", "again", 0, Some("name 14"), None),
            Some(TraceFault::RepeatedSend { line }),
        ),
        (
            ("n", "name 0", "again", 0, None, Some("name 0")),
            Some(TraceFault::RepeatedRecv { line }),
        ),
        (("n", "name", "sent", 0, Some("nam"), Some("name 00")), None),
    ]
}

/// Asserts that these names are told apart, and that a repeated one is refused after them.
fn tells_apart<R: Abort + AllocGlobal + Threads + Sync>(
    rt: &R,
    names: &[String],
    line: u32,
) -> Result<(), Fail> {
    assert!(rt; are_told_apart(rt, names)?);
    for (more, fault) in lines_after(line) {
        assert_eq!(rt; fault_with(rt, names, more)?, fault);
    }
    Ok(())
}

#[test]
fn few_and_many_texts_are_told_apart_alike(rt: HostRuntime) -> Result<(), Fail> {
    // 30 to 34 events and then 62 to 66, so that there are about 32 events, and then 32 messages
    for count in [15u32, 16, 17, 31, 32, 33, 200] {
        let names = make_names(rt.alloc(), count)?;
        tells_apart(&rt, &names, 2 * count + 1)?;
    }
    Ok(())
}
