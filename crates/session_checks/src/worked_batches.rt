//! Events of worked batches.
use std::alloc::{AllocError, Global};
use trace_types::{Event, NameText, Text};

/// A day in nanoseconds.
const DAY: u64 = 86_400_000_000_000;

/// Makes an event of the one machine.
fn event(
    alloc: Global,
    line: u32,
    request: &str,
    task: &str,
    name: &str,
    time: u64,
) -> Result<Event, AllocError> {
    Ok(Event {
        line,
        request: Text::new(alloc, request)?,
        machine: Text::new(alloc, "m")?,
        task: Text::new(alloc, task)?,
        event: Text::new(alloc, name)?,
        time,
        send: None,
        recv: None,
    })
}

/// Makes the name of the segments of a task from `s` to `e`.
pub(crate) fn name(alloc: Global, task: &str) -> Result<NameText, AllocError> {
    Ok(NameText {
        task: Text::new(alloc, task)?,
        start: Text::new(alloc, "s")?,
        end: Text::new(alloc, "e")?,
    })
}

/// Makes the events of two traces on the days 1 and 2, and of a third that has an event twice.
pub(crate) fn batch(alloc: Global) -> Result<Vec<Event>, AllocError> {
    let mut events = Vec::new(alloc);
    for (line, request, name, time) in [
        (1, "r1", "s", DAY),
        (2, "r1", "e", DAY + 10_000),
        (3, "r2", "s", 2 * DAY),
        (4, "r2", "e", 2 * DAY + 10_000),
        (5, "r3", "s", 2 * DAY),
        (6, "r3", "s", 2 * DAY + 10_000),
    ] {
        events.push(event(alloc, line, request, "a", name, time)?)?;
    }
    Ok(events)
}

/// Makes the events of two traces on the day 0, of two tasks: `a` comes first in the one, and `b`
/// in the other.
pub(crate) fn turned_batch(alloc: Global) -> Result<Vec<Event>, AllocError> {
    let mut events = Vec::new(alloc);
    for (line, request, task, name, time) in [
        (1, "r1", "a", "s", 0),
        (2, "r1", "a", "e", 10_000),
        (3, "r1", "b", "s", 20_000),
        (4, "r1", "b", "e", 30_000),
        (5, "r2", "b", "s", 0),
        (6, "r2", "b", "e", 10_000),
        (7, "r2", "a", "s", 20_000),
        (8, "r2", "a", "e", 30_000),
    ] {
        events.push(event(alloc, line, request, task, name, time)?)?;
    }
    Ok(events)
}

/// Makes the events of the first of these two traces.
pub(crate) fn first_of_turned(alloc: Global) -> Result<Vec<Event>, AllocError> {
    let mut events = turned_batch(alloc)?;
    events.truncate(4);
    Ok(events)
}

/// Makes the events of so many traces, each on a day of its own.
pub(crate) fn on_days(alloc: Global, days: u32) -> Result<Vec<Event>, AllocError> {
    let mut events = Vec::new(alloc);
    for day in 0..days.min(1000) {
        let request = format!(in alloc; "r{day}")?;
        let time = u64::from(day) * DAY;
        events.push(event(alloc, 2 * day + 1, request.as_str(), "a", "s", time)?)?;
        events.push(event(alloc, 2 * day + 2, request.as_str(), "a", "e", time + 5_000)?)?;
    }
    Ok(events)
}
