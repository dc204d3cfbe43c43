//! Names, events, and the lists of segments and traces.
use std::alloc::{AllocError, Global};
use std::cmp::Ordering;
use std::test::Fail;
use trace_types::{
    Event, LATEST_TIME, NameText, NamedSegment, NamedSegmentList, NamedTrace, NamedTraceList,
    Segment, SegmentList, Text, are_timely,
};

/// Makes a name of three texts.
fn name(alloc: Global, task: &str, start: &str, end: &str) -> Result<NameText, AllocError> {
    Ok(NameText {
        task: Text::new(alloc, task)?,
        start: Text::new(alloc, start)?,
        end: Text::new(alloc, end)?,
    })
}

#[test]
fn names_are_ordered_by_the_bytes_of_task_start_and_end(rt: HostRuntime) -> Result<(), Fail> {
    let alloc = rt.alloc();
    let rows = [
        (["a", "z", "z"], ["b", "a", "a"], Ordering::Less),
        (["a", "s", "z"], ["a", "t", "a"], Ordering::Less),
        (["a", "s", "f"], ["a", "s", "e"], Ordering::Greater),
        (["z", "s", "e"], ["\u{e9}", "s", "e"], Ordering::Less),
        (["ab", "s", "e"], ["a", "s", "e"], Ordering::Greater),
        (["a", "s", "e"], ["a", "s", "e"], Ordering::Equal),
    ];
    for (left, right, order) in rows {
        let left = name(alloc, left[0], left[1], left[2])?;
        let right = name(alloc, right[0], right[1], right[2])?;
        assert!(rt; left.copy(alloc)?.cmp(&right) == order);
    }
    Ok(())
}

#[test]
fn an_event_may_be_as_late_as_the_latest_time(rt: HostRuntime) -> Result<(), Fail> {
    let alloc = rt.alloc();
    let event = Event {
        line: 7,
        request: Text::new(alloc, "r")?,
        machine: Text::new(alloc, "m")?,
        task: Text::new(alloc, "a")?,
        event: Text::new(alloc, "s")?,
        time: LATEST_TIME,
        send: None,
        recv: None,
    };
    let mut events = vec![in alloc; event]?;
    assert!(rt; are_timely(&events));
    events[0].time = LATEST_TIME + 1;
    assert!(rt; !are_timely(&events));
    Ok(())
}

#[test]
fn lists_give_back_what_they_were_made_of(rt: HostRuntime) -> Result<(), Fail> {
    let alloc = rt.alloc();
    let segment = Segment {
        task: Text::new(alloc, "a")?,
        start_event: Text::new(alloc, "s")?,
        end_event: Text::new(alloc, "e")?,
        start: -1,
        end: 4,
        element: None,
    };
    let segments = SegmentList::of(vec![in alloc; segment]?);
    assert_eq!(rt; segments.items().len(), 1);
    assert_eq!(rt; segments.into_items()[0].end, 4);
    Ok(())
}

#[test]
fn a_named_trace_is_copied_with_its_grace(rt: HostRuntime) -> Result<(), Fail> {
    let alloc = rt.alloc();
    let segment = NamedSegment {
        name: 511,
        task: 63,
        element: Some(0),
        start: 5,
        end: 9,
    };
    let segments = NamedSegmentList::of(vec![in alloc; segment]?);
    let trace = NamedTrace {
        request: Text::new(alloc, "r")?,
        day: 19800,
        latency: 4,
        grace: 0,
        segments,
    };
    let trace = trace.with_grace(1_000_000_000);
    let traces = NamedTraceList::of(vec![in alloc; trace.copy(alloc)?, trace]?);
    assert_eq!(rt; traces.items().len(), 2);
    for trace in traces.into_items() {
        assert_eq!(rt; trace.request.as_str(), "r");
        assert_eq!(rt; trace.grace, 1_000_000_000);
        assert!(rt; trace.segments.into_items()[0].element == Some(0));
    }
    Ok(())
}
