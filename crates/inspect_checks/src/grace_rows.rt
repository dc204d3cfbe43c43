use crate::running::{SETTING, Setting, expect};
use std::alloc::{AllocError, Global};
use std::test::Fail;

/// The events of a request, behind its name: `b` starts as `a` ends.
const EVENTS: [&[u8]; 4] = [
    b"\",\"machine\":\"m\",\"task\":\"a\",\"event\":\"s\",\"time\":1000}\n",
    b"\",\"machine\":\"m\",\"task\":\"a\",\"event\":\"e\",\"time\":2000}\n",
    b"\",\"machine\":\"m\",\"task\":\"b\",\"event\":\"s\",\"time\":2000}\n",
    b"\",\"machine\":\"m\",\"task\":\"b\",\"event\":\"e\",\"time\":3000}\n",
];

/// The same, but `b` starts 36 microseconds before `a` ends.
const EARLY: [&[u8]; 4] = [
    b"\",\"machine\":\"m\",\"task\":\"a\",\"event\":\"s\",\"time\":1000}\n",
    b"\",\"machine\":\"m\",\"task\":\"a\",\"event\":\"e\",\"time\":2000}\n",
    b"\",\"machine\":\"m\",\"task\":\"b\",\"event\":\"s\",\"time\":1964}\n",
    b"\",\"machine\":\"m\",\"task\":\"b\",\"event\":\"e\",\"time\":3000}\n",
];

/// The rows of 110 requests, of which one is early.
const ROWS: &[u8] =
    b"lines\tok\t440\t440\t-\tevent lines\ntime\tnote\t1000000\t3000000\t-\tleast and greatest\ntime\tok\t1\t110\t-\tdays\ntime\tok\t0\t110\t-\tno time passes\ntime\tok\t0\t110\t-\tlonger than a day\ntraces\tok\t110\t110\t-\tvalid\nrefused\tok\t0\t110\t-\tslowest twentieth\nclock\tok\t0\t0\t-\tno offset\nclock\tok\t0\t0\t-\tdelays contradict\nmessage\tok\t0\t0\t-\tnever received\nmessage\tok\t0\t0\t-\tnever sent\ncut\tok\t0\t110\t-\tlacks what nine of ten have\nwait\tok\t0\t220\t-\tfrom a send to a receipt\nname\tok\t2\t512\t-\tsegment names\nname\tok\t0\t2\t-\tin one trace alone\ntask\tok\t2\t64\t-\ttasks\ngrace\tnote\t2\t3\t-\trefuted by few, by less than 1 ms\ngrace\tnote\t1\t110\tbc\ta: s -> e | happens before | b: s -> e | survives with a grace of 36\ngrace\tnote\t1\t110\tbc\ta: s -> e | excludes | b: s -> e | survives with a grace of 36\n";

/// Appends the events of the request whose name is two letters.
fn push_request(
    text: &mut Vec<u8>,
    one: u8,
    two: u8,
    events: &[&[u8]; 4],
) -> Result<(), AllocError> {
    for event in events {
        text.extend_from_slice(b"{\"request\":\"")?;
        text.push(one)?;
        text.push(two)?;
        text.extend_from_slice(event)?;
    }
    Ok(())
}

/// Appends the events of ten requests.
fn push_ten(text: &mut Vec<u8>, one: u8) -> Result<(), AllocError> {
    for two in b'a'..b'k' {
        let is_early = one == b'b' && two == b'c';
        push_request(text, one, two, if is_early { &EARLY } else { &EVENTS })?;
    }
    Ok(())
}

/// Makes the lines of 110 requests.
fn make_lines(alloc: Global) -> Result<Vec<u8>, AllocError> {
    let mut text = Vec::new(alloc);
    for one in b'a'..b'l' {
        push_ten(&mut text, one)?;
    }
    Ok(text)
}

#[test]
fn what_one_of_a_hundred_refutes_by_little_is_told(rt: HostRuntime) -> Result<(), Fail> {
    let lines = make_lines(rt.alloc())?;
    let setting = Setting {
        f: &lines,
        ..SETTING
    };
    expect(&rt, rt.alloc(), setting, 0, ROWS, b"")
}
