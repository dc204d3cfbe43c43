use crate::rows::Row::Line;
use crate::running::{SETTING, Setting, expect, expect_texts};
use std::alloc::{AllocError, Global};
use std::process::Abort;
use std::test::Fail;
use std::thread::Threads;

/// Rows of a reason and a line that is bad for it.
const BAD_LINES: &str = r#"
not a JSON object|[]
missing member|{"request":"r1","machine":"m","task":"a","event":"s"}
wrong kind|{"request":"r1","machine":"m","task":"a","event":"s","time":"5"}
wrong kind|{"request":"r1","machine":"m","task":"a","event":"s","time":true}
wrong kind|{"request":"r1","machine":"m","task":"a","event":"s","nanos":"5"}
wrong kind|{"request":"r1","machine":"m","task":"a","event":"s","time":0,"nanos":"5"}
out of range|{"request":"r1","machine":"m","task":"a","event":"s","time":-1}
out of range|{"request":"r1","machine":"m","task":"a","event":"s","time":4102444800000001}
out of range|{"request":"r1","machine":"m","task":"a","event":"s","nanos":4102444800000000001}
bad text|{"request":"r1","machine":"m","task":"","event":"s","time":0}
unknown command|{"do":"stop"}
unknown command|{"do":"Add"}
wrong kind|{"do":5}
wrong kind|{"do":null}
missing member|{"do":"drop"}
missing member|{"do":"keep"}
missing member|{"do":"watch"}
missing member|{"do":"grace"}
wrong kind|{"do":"drop","day":"1"}
wrong kind|{"do":"keep","days":true}
wrong kind|{"do":"watch","every":"1"}
wrong kind|{"do":"grace","micros":"1"}
out of range|{"do":"drop","day":-1}
out of range|{"do":"keep","days":1000001}
out of range|{"do":"watch","every":1000001}
out of range|{"do":"grace","micros":1000001}
"#;

/// Compares what two commands tell of a bad line.
fn expect_bad_line<R: Threads + Sync + Abort>(
    rt: &R,
    alloc: Global,
    line: &str,
    reason: &str,
) -> Result<(), Fail> {
    let err = format!(in alloc; "line 1: {reason}\n")?;
    let setting = Setting {
        words: &["session", "f"],
        f: line.as_bytes(),
        ..SETTING
    };
    let graph = Setting {
        words: &["graph", "f"],
        ..setting
    };
    expect(rt, alloc, setting, 3, b"", err.as_bytes())?;
    expect(rt, alloc, graph, 3, b"", err.as_bytes())
}

#[test]
fn each_single_bad_line_is_told(rt: HostRuntime) -> Result<(), Fail> {
    let mut rows = 0usize;
    for row in BAD_LINES.lines() {
        if let Some((reason, line)) = row.split_once('|') {
            rows = rows.wrapping_add(1);
            expect_bad_line(&rt, rt.alloc(), line, reason)?;
        }
    }
    assert_eq!(rt; rows, 26);
    Ok(())
}

/// Good lines of one event: the greatest time, a message that is null, and nanoseconds that are.
const GOOD_LINES: [&str; 3] = [
    r#"{"request":"r1","machine":"m","task":"a","event":"s","time":4102444800000000}"#,
    r#"{"request":"r1","machine":"m","task":"a","event":"s","time":0,"send":null}"#,
    r#"{"request":"r1","machine":"m","task":"a","event":"s","time":0,"nanos":null}"#,
];

#[test]
fn a_good_line_at_the_edge_is_a_trace(rt: HostRuntime) -> Result<(), Fail> {
    let model: &[u8] = b"model\ttraces=1\tdays=1\tsegments=0\ttasks=0\thb=0\tmx=0\tpipe=0\n";
    for line in GOOD_LINES {
        expect_texts(&rt, rt.alloc(), "4", &[("model", &[&[Line(line)]], model)])?;
    }
    Ok(())
}

#[test]
fn the_first_bad_line_is_told(rt: HostRuntime) -> Result<(), Fail> {
    let table: [(&[u8], &[u8], &[u8]); 3] = [
        (
            b"{\"do\":\"model\"}\n\n{\"do\":\"drop\"}\n",
            b"[]",
            b"line 3: missing member\n",
        ),
        (
            b"\n \n{\"request\":\"r1\",\"mach",
            b"[]",
            b"line 3: not a JSON object\n",
        ),
        (
            b"{\"do\":\"add\"}",
            b"{\"do\":\"report\"}\n[]",
            b"line 3: not a JSON object\n",
        ),
    ];
    for (f, g, err) in table {
        let setting = Setting {
            words: &["model", "f", "g"],
            f,
            g,
            ..SETTING
        };
        expect(&rt, rt.alloc(), setting, 3, b"", err)?;
    }
    Ok(())
}

#[test]
fn a_later_read_fault_is_told_before_a_bad_line(rt: HostRuntime) -> Result<(), Fail> {
    let setting = Setting {
        words: &["model", "f", "missing"],
        f: b"[]\n",
        ..SETTING
    };
    expect(&rt, rt.alloc(), setting, 4, b"", b"file 2: read failed\n")
}

/// Makes so many line feeds and this line after them.
fn after_line_feeds(alloc: Global, count: usize, last: &[u8]) -> Result<Vec<u8>, AllocError> {
    let mut bytes = vec![in alloc; b'\n'; count]?;
    bytes.extend_from_slice(last)?;
    Ok(bytes)
}

/// Compares what one worker tells of a last line after 1,048,570 line feeds, with a bad line after it
/// in another file.
fn expect_numbered<R: Threads + Sync + Abort>(
    rt: &R,
    alloc: Global,
    last: &[u8],
    err: &[u8],
) -> Result<(), Fail> {
    let f = after_line_feeds(alloc, 1_048_570, last)?;
    let setting = Setting {
        words: &["--workers", "1", "model", "f", "g"],
        f: &f,
        g: b"[]",
        ..SETTING
    };
    expect(rt, alloc, setting, 3, b"", err)
}

/// One worker reads 1,048,576 bytes at a time: the last line of the first file goes on in the bytes
/// after these.
#[test]
fn lines_are_numbered_over_all_bytes(rt: HostRuntime) -> Result<(), Fail> {
    let table: [(&[u8], &[u8]); 2] = [
        (b"{\"do\":\"add\"}", b"line 1048572: not a JSON object\n"),
        (b"{\"do\":\"stop\"}", b"line 1048571: unknown command\n"),
    ];
    for (last, err) in table {
        expect_numbered(&rt, rt.alloc(), last, err)?;
    }
    Ok(())
}
