use std::alloc::{AllocError, Global};
use trace_types::{Event, Text};

/// Copies a message, or nothing where it is empty.
fn message(alloc: Global, text: &str) -> Result<Option<Text>, AllocError> {
    if text.is_empty() {
        Ok(None)
    } else {
        Ok(Some(Text::new(alloc, text)?))
    }
}

/// Appends an event: its request, machine, task, name and the messages that it sends and receives,
/// and its time in microseconds.
fn push_event(
    events: &mut Vec<Event>,
    alloc: Global,
    texts: &[&str; 6],
    time: u64,
) -> Result<(), AllocError> {
    let [request, machine, task, event, send, recv] = *texts;
    events.push(Event {
        line: (events.len() % 1_000_000) as u32 + 1,
        request: Text::new(alloc, request)?,
        machine: Text::new(alloc, machine)?,
        task: Text::new(alloc, task)?,
        event: Text::new(alloc, event)?,
        time: (time % 4_102_444_800_000_000) * 1000,
        send: message(alloc, send)?,
        recv: message(alloc, recv)?,
    })?;
    Ok(())
}

/// Two tasks that pass on two elements, in order.
pub(crate) const IN_ORDER: [(&str, &str, u64); 6] = [
    ("t", "x@d", 0),
    ("t", "x@e", 10),
    ("t", "z", 20),
    ("u", "y@d", 20),
    ("u", "y@e", 30),
    ("u", "w", 40),
];

/// The same two tasks, the second of which takes the elements the other way round.
pub(crate) const TURNED: [(&str, &str, u64); 6] = [
    ("t", "x@d", 0),
    ("t", "x@e", 10),
    ("t", "z", 20),
    ("u", "y@e", 30),
    ("u", "y@d", 40),
    ("u", "w", 50),
];

/// Appends the events of one request on one machine: tasks, names and times in microseconds.
pub(crate) fn push_request(
    events: &mut Vec<Event>,
    alloc: Global,
    request: &str,
    rows: &[(&str, &str, u64)],
) -> Result<(), AllocError> {
    for (task, event, time) in rows {
        push_event(events, alloc, &[request, "m", task, event, "", ""], *time)?;
    }
    Ok(())
}

/// An event of a page load: the machine, the task, the name, the messages that it sends and
/// receives, and the times in two requests.
type PageEvent = (
    &'static str,
    &'static str,
    &'static str,
    &'static str,
    &'static str,
    u64,
    u64,
);

/// The events of a page load.
const PAGE_LOAD: [PageEvent; 18] = [
    ("phone", "browser request", "tap", "", "", 0, 0),
    (
        "phone",
        "browser request",
        "request sent",
        "m1",
        "",
        1200,
        900,
    ),
    (
        "web",
        "web accept",
        "request received",
        "",
        "m1",
        31450,
        19900,
    ),
    ("web", "web accept", "parsed", "", "", 32250, 20500),
    ("web", "page head", "write head@html", "", "", 32250, 20500),
    ("web", "page head", "head flushed", "m5", "", 33750, 21500),
    ("web", "user query", "query start", "", "", 32250, 20500),
    ("web", "user query", "query end", "", "", 39250, 40500),
    ("web", "ads call", "call start", "m2", "", 32250, 20500),
    ("ads", "ads ranking", "rank start", "", "m2", 32060, 20310),
    ("ads", "ads ranking", "rank end", "m3", "", 46960, 32310),
    ("web", "ads call", "call end", "", "m3", 47350, 32700),
    ("web", "page body", "write body", "", "", 47350, 40500),
    ("web", "page body", "body flushed", "m4", "", 49350, 43000),
    (
        "phone",
        "download",
        "first byte@html",
        "",
        "m5",
        63500,
        42500,
    ),
    ("phone", "download", "last byte", "", "m4", 79100, 64000),
    (
        "phone",
        "browser render",
        "paint start",
        "",
        "",
        79100,
        64000,
    ),
    ("phone", "browser render", "paint end", "", "", 84100, 67000),
];

/// The events of the two requests of a page load.
pub(crate) fn page_load(alloc: Global) -> Result<Vec<Event>, AllocError> {
    let mut events = Vec::with_capacity(alloc, 36)?;
    for (machine, task, event, send, recv, time, _) in &PAGE_LOAD {
        let texts = ["req 4711", machine, task, event, send, recv];
        push_event(
            &mut events,
            alloc,
            &texts,
            time.wrapping_add(1_710_720_000_000_000),
        )?;
    }
    for (machine, task, event, send, recv, _, time) in &PAGE_LOAD {
        let texts = ["req 4712", machine, task, event, send, recv];
        push_event(
            &mut events,
            alloc,
            &texts,
            time.wrapping_add(1_710_720_001_000_000),
        )?;
    }
    Ok(events)
}
