//! Texts of so many traces that several threads make them.
use crate::rows::put_whole_event;
use crate::running::{SETTING, Setting, expect};
use itoa::Buffer;
use std::alloc::{AllocError, Global};
use std::process::Abort;
use std::test::Fail;
use std::thread::Threads;

/// So many traces of one segment are cut into three pieces.
const TRACES: u32 = 600;

/// Tells how long the segment of a trace lasts, in microseconds.
fn length_of(number: u32) -> u32 {
    1 + number % 7
}

/// Appends the lines of a trace.
fn put_trace(bytes: &mut Vec<u8>, number: u32) -> Result<(), AllocError> {
    let mut request = Buffer::new();
    let mut end = Buffer::new();
    let request = request.format(number);
    put_whole_event(bytes, request, "t", "s", "0")?;
    put_whole_event(bytes, request, "t", "e", end.format(length_of(number)))
}

/// Makes the lines of the traces. Each request is the number of its trace.
fn lines(alloc: Global) -> Result<Vec<u8>, AllocError> {
    let mut bytes = Vec::new(alloc);
    for number in 0..TRACES {
        put_trace(&mut bytes, number)?;
    }
    Ok(bytes)
}

/// Appends a number of nanoseconds after a tab, given in microseconds.
fn put_time(bytes: &mut Vec<u8>, time: u32) -> Result<(), AllocError> {
    let mut digits = Buffer::new();
    bytes.push(b'\t')?;
    bytes.extend_from_slice(digits.format(time).as_bytes())?;
    bytes.extend_from_slice(b"000")
}

/// Appends the first row of a trace: this word, the request, the day and the latency.
fn put_head(bytes: &mut Vec<u8>, word: &str, number: u32) -> Result<(), AllocError> {
    let mut request = Buffer::new();
    bytes.extend_from_slice(word.as_bytes())?;
    bytes.push(b'\t')?;
    bytes.extend_from_slice(request.format(number).as_bytes())?;
    bytes.extend_from_slice(b"\t0")?;
    put_time(bytes, length_of(number))
}

/// Appends the rows of the path of a trace.
fn put_path(bytes: &mut Vec<u8>, number: u32) -> Result<(), AllocError> {
    put_head(bytes, "path", number)?;
    put_time(bytes, length_of(number))?;
    bytes.extend_from_slice(b"\t1\nstep\tt\ts\te")?;
    put_time(bytes, length_of(number))?;
    bytes.extend_from_slice(b"\n")
}

/// Makes the text of the paths of the traces.
fn paths(alloc: Global) -> Result<Vec<u8>, AllocError> {
    let mut bytes = b"paths\ttraces=600\n".to_vec(alloc)?;
    for number in 0..TRACES {
        put_path(&mut bytes, number)?;
    }
    Ok(bytes)
}

/// Appends the rows of the graph of a trace.
fn put_graph(bytes: &mut Vec<u8>, number: u32) -> Result<(), AllocError> {
    put_head(bytes, "trace", number)?;
    bytes.extend_from_slice(b"\t1\t0\nvertex\t0\tt\ts\te")?;
    put_time(bytes, length_of(number))?;
    bytes.extend_from_slice(b"\n")
}

/// Makes the text of the graphs of the traces.
fn graphs(alloc: Global) -> Result<Vec<u8>, AllocError> {
    let mut bytes = b"graph\ttraces=600\n".to_vec(alloc)?;
    for number in 0..TRACES {
        put_graph(&mut bytes, number)?;
    }
    Ok(bytes)
}

/// Prints the paths of an input and compares the text.
fn expect_paths<R: Threads + Sync + Abort>(rt: &R, alloc: Global, f: &[u8]) -> Result<(), Fail> {
    let text = paths(alloc)?;
    let setting = Setting {
        words: &["paths", "f"],
        f,
        ..SETTING
    };
    expect(rt, alloc, setting, 0, &text, b"")
}

/// Prints the graphs of an input and compares the text.
fn expect_graphs<R: Threads + Sync + Abort>(rt: &R, alloc: Global, f: &[u8]) -> Result<(), Fail> {
    let text = graphs(alloc)?;
    let setting = Setting {
        words: &["graph", "f"],
        f,
        ..SETTING
    };
    expect(rt, alloc, setting, 0, &text, b"")
}

#[test]
fn texts_of_many_traces_stand_in_their_order(rt: HostRuntime) -> Result<(), Fail> {
    let f = lines(rt.alloc())?;
    expect_paths(&rt, rt.alloc(), &f)?;
    expect_graphs(&rt, rt.alloc(), &f)
}
