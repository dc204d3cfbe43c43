use std::alloc::{AllocError, Global};

/// A row of an input.
#[derive(Clone, Copy)]
pub(crate) enum Row<'t> {
    /// An event of machine m: the request, the task, the event and the time in microseconds.
    Event(&'t str, &'t str, &'t str, &'t str),
    /// A table of events, a line each: the request, the machine, the task, the event, the time in
    /// microseconds, and the messages that are sent and received, empty where there is none.
    Table(&'t str),
    /// A line as it is.
    Line(&'t str),
}

pub(crate) const ADD: Row<'static> = Row::Line("{\"do\":\"add\"}");

pub(crate) const MODEL: Row<'static> = Row::Line("{\"do\":\"model\"}");

/// Appends a member, unless its text is empty.
fn put_member(bytes: &mut Vec<u8>, name: &str, text: &str) -> Result<(), AllocError> {
    if text.is_empty() {
        return Ok(());
    }
    bytes.extend_from_slice(b",\"")?;
    bytes.extend_from_slice(name.as_bytes())?;
    bytes.extend_from_slice(b"\":\"")?;
    bytes.extend_from_slice(text.as_bytes())?;
    bytes.extend_from_slice(b"\"")
}

/// Appends an event's object but for its closing brace.
fn put_event(
    bytes: &mut Vec<u8>,
    request: &str,
    machine: &str,
    task: &str,
    event: &str,
    time: &str,
) -> Result<(), AllocError> {
    bytes.extend_from_slice(b"{\"time\":")?;
    bytes.extend_from_slice(time.as_bytes())?;
    put_member(bytes, "request", request)?;
    put_member(bytes, "machine", machine)?;
    put_member(bytes, "task", task)?;
    put_member(bytes, "event", event)
}

/// Appends the line of an event of machine m.
pub(crate) fn put_whole_event(
    bytes: &mut Vec<u8>,
    request: &str,
    task: &str,
    event: &str,
    time: &str,
) -> Result<(), AllocError> {
    put_event(bytes, request, "m", task, event, time)?;
    bytes.extend_from_slice(b"}\n")
}

/// Appends the event of a line of a table.
fn put_line(bytes: &mut Vec<u8>, line: &str) -> Result<(), AllocError> {
    let mut columns = line.split('|');
    let request = columns.next().unwrap_or("");
    let machine = columns.next().unwrap_or("");
    let task = columns.next().unwrap_or("");
    let event = columns.next().unwrap_or("");
    let time = columns.next().unwrap_or("");
    put_event(bytes, request, machine, task, event, time)?;
    put_member(bytes, "send", columns.next().unwrap_or(""))?;
    put_member(bytes, "recv", columns.next().unwrap_or(""))?;
    bytes.extend_from_slice(b"}\n")
}

/// Appends the events of a table.
fn put_table(bytes: &mut Vec<u8>, table: &str) -> Result<(), AllocError> {
    for line in table.lines() {
        put_line(bytes, line)?;
    }
    Ok(())
}

/// Appends a row.
fn put_row(bytes: &mut Vec<u8>, row: Row<'_>) -> Result<(), AllocError> {
    match row {
        Row::Event(request, task, event, time) => {
            put_whole_event(bytes, request, task, event, time)
        }
        Row::Table(table) => put_table(bytes, table),
        Row::Line(line) => {
            bytes.extend_from_slice(line.as_bytes())?;
            bytes.extend_from_slice(b"\n")
        }
    }
}

/// Makes the bytes of an input from its pieces.
pub(crate) fn input_of(alloc: Global, pieces: &[&[Row<'_>]]) -> Result<Vec<u8>, AllocError> {
    let mut bytes = Vec::new(alloc);
    for piece in pieces {
        for row in *piece {
            put_row(&mut bytes, *row)?;
        }
    }
    Ok(bytes)
}

pub(crate) const TOUCHING: [Row<'static>; 4] = [
    Row::Event("r1", "a", "s", "0"),
    Row::Event("r1", "a", "e", "10"),
    Row::Event("r1", "b", "s", "10"),
    Row::Event("r1", "b", "e", "30"),
];

pub(crate) const OPPOSITE: [Row<'static>; 4] = [
    Row::Event("r2", "b", "s", "0"),
    Row::Event("r2", "b", "e", "5"),
    Row::Event("r2", "a", "s", "5"),
    Row::Event("r2", "a", "e", "9"),
];

pub(crate) const OVERLAP: [Row<'static>; 4] = [
    Row::Event("r3", "a", "s", "0"),
    Row::Event("r3", "a", "e", "10"),
    Row::Event("r3", "b", "s", "9"),
    Row::Event("r3", "b", "e", "20"),
];

/// The first segment ends after the second, which lies in it.
pub(crate) const INSIDE: [Row<'static>; 4] = [
    Row::Event("r1", "a", "s", "0"),
    Row::Event("r1", "a", "e", "100"),
    Row::Event("r1", "b", "s", "1"),
    Row::Event("r1", "b", "e", "5"),
];

/// The second and the third segment overlap.
pub(crate) const BRANCHES: [Row<'static>; 8] = [
    Row::Event("r1", "a", "s", "0"),
    Row::Event("r1", "a", "e", "5"),
    Row::Event("r1", "b", "s", "5"),
    Row::Event("r1", "b", "e", "15"),
    Row::Event("r1", "c", "s", "5"),
    Row::Event("r1", "c", "e", "9"),
    Row::Event("r1", "d", "s", "15"),
    Row::Event("r1", "d", "e", "18"),
];
