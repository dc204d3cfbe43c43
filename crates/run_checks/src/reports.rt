use crate::rows::{ADD, Row, TOUCHING, put_whole_event};
use crate::running::{Printed, SETTING, Setting, expect, expect_texts};
use Row::{Event, Line};
use std::alloc::{AllocError, Global};
use std::process::Abort;
use std::test::Fail;
use std::thread::Threads;

const THIRTY: [Row<'static>; 2] = [Event("r1", "a", "s", "0"), Event("r1", "a", "e", "30")];

const TEN: [Row<'static>; 2] = [Event("r2", "a", "s", "0"), Event("r2", "a", "e", "10")];

const FORTY: [Row<'static>; 2] = [Event("r3", "a", "s", "0"), Event("r3", "a", "e", "40")];

const TWENTY: [Row<'static>; 2] = [Event("r4", "a", "s", "0"), Event("r4", "a", "e", "20")];

const REPORT: Row<'static> = Line("{\"do\":\"report\"}");

/// Another trace that takes as long as the one in front of it.
const AS_SLOW: [Row<'static>; 2] = [Event("r5", "b", "s", "0"), Event("r5", "b", "e", "20")];

#[test]
fn reports_have_counts_sums_medians_and_the_greatest(rt: HostRuntime) -> Result<(), Fail> {
    let table: [Printed<'_>; 6] = [
        (
            "report",
            &[],
            b"report\ttraces=0\tcritical=0\nlatency\t0\t0\t0\t0\n",
        ),
        (
            "report",
            &[&THIRTY],
            b"report\ttraces=1\tcritical=30000\nlatency\t1\t30000\t30000\t30000\n\
                segment\ta\ts\te\t1\t30000\t30000\t30000\t1\t30000\n",
        ),
        (
            "report",
            &[&THIRTY, &TEN],
            b"report\ttraces=2\tcritical=40000\nlatency\t2\t40000\t10000\t30000\n\
                segment\ta\ts\te\t2\t40000\t10000\t30000\t2\t40000\n",
        ),
        (
            "report",
            &[&THIRTY, &TEN, &FORTY],
            b"report\ttraces=3\tcritical=80000\nlatency\t3\t80000\t30000\t40000\n\
                segment\ta\ts\te\t3\t80000\t30000\t40000\t3\t80000\n",
        ),
        (
            "report",
            &[&THIRTY, &TEN, &FORTY, &TWENTY],
            b"report\ttraces=4\tcritical=100000\nlatency\t4\t100000\t20000\t40000\n\
                segment\ta\ts\te\t4\t100000\t20000\t40000\t4\t100000\n",
        ),
        (
            "session",
            &[&TOUCHING, &[ADD, REPORT]],
            b"report\ttraces=1\tcritical=30000\nlatency\t1\t30000\t30000\t30000\n\
                segment\ta\ts\te\t1\t10000\t10000\t10000\t1\t10000\n\
                segment\tb\ts\te\t1\t20000\t20000\t20000\t1\t20000\n",
        ),
    ];
    expect_texts(&rt, rt.alloc(), "4", &table)
}

#[test]
fn of_equal_latencies_the_last_is_slow(rt: HostRuntime) -> Result<(), Fail> {
    let table: [Printed<'_>; 2] = [
        ("tail", &[], b"tail\ttraces=0\tslow=0\tfloor=0\n"),
        (
            "tail",
            &[&TWENTY, &AS_SLOW],
            b"tail\ttraces=2\tslow=1\tfloor=20000\nsegment\ta\ts\te\t0\t0\t1\t20000\n\
                segment\tb\ts\te\t1\t20000\t0\t0\n",
        ),
    ];
    expect_texts(&rt, rt.alloc(), "4", &table)
}

/// Appends a trace of one segment, which takes a microsecond more than its number.
fn put_trace(alloc: Global, bytes: &mut Vec<u8>, number: u8) -> Result<(), AllocError> {
    let request = format!(in alloc; "r{number}")?;
    let time = format!(in alloc; "{}", u16::from(number) + 1)?;
    put_whole_event(bytes, &request, "a", "s", "0")?;
    put_whole_event(bytes, &request, "a", "e", &time)
}

/// Appends so many traces of one segment; the first takes 1 microsecond, and each other one more
/// than the one in front of it.
fn put_traces(alloc: Global, bytes: &mut Vec<u8>, count: u8) -> Result<(), AllocError> {
    for n in 0..count {
        put_trace(alloc, bytes, n)?;
    }
    Ok(())
}

/// Makes the input of so many such traces.
fn traces_of(alloc: Global, count: u8) -> Result<Vec<u8>, AllocError> {
    let mut bytes = Vec::new(alloc);
    put_traces(alloc, &mut bytes, count)?;
    Ok(bytes)
}

/// Reports on the slowest of so many such traces and compares the text.
fn expect_tail<R: Threads + Sync + Abort>(
    rt: &R,
    alloc: Global,
    count: u8,
    out: &[u8],
) -> Result<(), Fail> {
    let f = traces_of(alloc, count)?;
    let setting = Setting {
        words: &["tail", "f"],
        f: &f,
        ..SETTING
    };
    expect(rt, alloc, setting, 0, out, b"")
}

#[test]
fn one_trace_in_twenty_is_slow(rt: HostRuntime) -> Result<(), Fail> {
    let table: [(u8, &[u8]); 2] = [
        (
            20,
            b"tail\ttraces=20\tslow=1\tfloor=20000\nsegment\ta\ts\te\t1\t20000\t19\t190000\n",
        ),
        (
            21,
            b"tail\ttraces=21\tslow=2\tfloor=20000\nsegment\ta\ts\te\t2\t41000\t19\t190000\n",
        ),
    ];
    for (count, out) in table {
        expect_tail(&rt, rt.alloc(), count, out)?;
    }
    Ok(())
}
