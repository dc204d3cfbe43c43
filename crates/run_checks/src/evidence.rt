//! What stands behind relations, of a worked input.
use crate::rows::put_whole_event;
use crate::running::{SETTING, Setting, expect};
use itoa::Buffer;
use std::alloc::{AllocError, Global};
use std::test::Fail;

/// Appends a trace of two segments, the second from 5 or, in one trace, from 15 to 20.
fn put_trace(bytes: &mut Vec<u8>, number: u32) -> Result<(), AllocError> {
    let mut digits = Buffer::new();
    let request = digits.format(number);
    let start = if number == 2 { "5" } else { "15" };
    put_whole_event(bytes, request, "a", "s", "0")?;
    put_whole_event(bytes, request, "a", "e", "10")?;
    put_whole_event(bytes, request, "b", "s", start)?;
    put_whole_event(bytes, request, "b", "e", "20")
}

/// Makes the input of a hundred such traces, of which the one with the index 2 has an overlap.
fn hundred(alloc: Global) -> Result<Vec<u8>, AllocError> {
    let mut bytes = Vec::new(alloc);
    for number in 0..100 {
        put_trace(&mut bytes, number)?;
    }
    Ok(bytes)
}

#[test]
fn what_one_trace_in_a_hundred_refutes_is_nearly_a_relation(rt: HostRuntime) -> Result<(), Fail> {
    let f = hundred(rt.alloc())?;
    let setting = Setting {
        words: &["evidence", "f"],
        f: &f,
        ..SETTING
    };
    let out: &[u8] = b"evidence\ttraces=100\thb=0\tmx=0\tpipe=0\tnearly=2\n\
        nearly\tbefore\ta\ts\te\tb\ts\te\t100\t1\t0\t2\t2\n\
        nearly\texclusive\ta\ts\te\tb\ts\te\t100\t1\t0\t2\t2\n";
    expect(&rt, rt.alloc(), setting, 0, out, b"")
}

/// Appends the two events of a segment.
fn put_segment(
    bytes: &mut Vec<u8>,
    request: &str,
    task: &str,
    start: &str,
    end: &str,
) -> Result<(), AllocError> {
    put_whole_event(bytes, request, task, "s", start)?;
    put_whole_event(bytes, request, task, "e", end)
}

/// Makes the input of two traces of three segments, one after another, and of one without the first.
fn chain(alloc: Global) -> Result<Vec<u8>, AllocError> {
    let mut bytes = Vec::new(alloc);
    put_segment(&mut bytes, "0", "a", "0", "10")?;
    put_segment(&mut bytes, "0", "b", "20", "30")?;
    put_segment(&mut bytes, "0", "c", "40", "50")?;
    put_segment(&mut bytes, "1", "a", "0", "10")?;
    put_segment(&mut bytes, "1", "b", "25", "35")?;
    put_segment(&mut bytes, "1", "c", "40", "50")?;
    put_segment(&mut bytes, "2", "b", "0", "10")?;
    put_segment(&mut bytes, "2", "c", "20", "30")?;
    Ok(bytes)
}

#[test]
fn an_order_through_another_segment_is_left_out_of_a_reduced_list(
    rt: HostRuntime,
) -> Result<(), Fail> {
    let f = chain(rt.alloc())?;
    let setting = Setting {
        words: &["evidence", "--reduced", "f"],
        f: &f,
        ..SETTING
    };
    let out: &[u8] = b"evidence\ttraces=3\thb=2\tmx=0\tpipe=0\tnearly=0\n\
        hb\tb\ts\te\tc\ts\te\t3\t5000\t10000\n\
        hb\ta\ts\te\tb\ts\te\t2\t10000\t15000\n";
    expect(&rt, rt.alloc(), setting, 0, out, b"")
}

#[test]
fn what_fewer_traces_support_is_left_out(rt: HostRuntime) -> Result<(), Fail> {
    let f = chain(rt.alloc())?;
    let setting = Setting {
        words: &["evidence", "--least", "3", "f"],
        f: &f,
        ..SETTING
    };
    let out: &[u8] = b"evidence\ttraces=3\thb=1\tmx=0\tpipe=0\tnearly=0\n\
        hb\tb\ts\te\tc\ts\te\t3\t5000\t10000\n";
    expect(&rt, rt.alloc(), setting, 0, out, b"")
}

/// A trace of which a machine's clock is corrected by 126 years, and logs an event 31 years later:
/// beyond the times whose differences are counted in 64 bits.
const FAR: &[u8] = b"\
{\"request\":\"0\",\"machine\":\"r\",\"task\":\"a\",\"event\":\"s\",\"time\":4000000000000000,\"send\":\"q\"}\n\
{\"request\":\"0\",\"machine\":\"m\",\"task\":\"b\",\"event\":\"r\",\"time\":0,\"recv\":\"q\"}\n\
{\"request\":\"0\",\"machine\":\"m\",\"task\":\"b\",\"event\":\"p\",\"time\":10,\"send\":\"w\"}\n\
{\"request\":\"0\",\"machine\":\"r\",\"task\":\"a\",\"event\":\"e\",\"time\":4000000000000030,\"recv\":\"w\"}\n\
{\"request\":\"0\",\"machine\":\"m\",\"task\":\"b\",\"event\":\"l\",\"time\":1000000000000000}\n\
{\"request\":\"0\",\"machine\":\"m\",\"task\":\"b\",\"event\":\"z\",\"time\":1000000000000005}\n";

#[test]
fn gaps_of_decades_after_a_century_are_exact(rt: HostRuntime) -> Result<(), Fail> {
    let setting = Setting {
        words: &["evidence", "f"],
        f: FAR,
        ..SETTING
    };
    let out: &[u8] = b"evidence\ttraces=1\thb=4\tmx=0\tpipe=0\tnearly=0\n\
        hb\ta\ts\te\tb\tl\tz\t1\t999999999999980000\t999999999999980000\n\
        hb\tb\tp\tl\tb\tl\tz\t1\t0\t0\n\
        hb\tb\tr\tp\tb\tl\tz\t1\t999999999999990000\t999999999999990000\n\
        hb\tb\tr\tp\tb\tp\tl\t1\t0\t0\n";
    expect(&rt, rt.alloc(), setting, 0, out, b"")
}
