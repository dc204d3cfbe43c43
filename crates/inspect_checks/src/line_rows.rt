use crate::running::{SETTING, Setting, expect};
use std::test::Fail;

/// An empty line, a good event with members that are ignored, spaces and tabs alone, no JSON, an
/// event without a machine, a good control line with odd spaces, an unknown one, an array, and a
/// good event that a carriage return ends and no line feed.
const F: &[u8] =
    b"\n{\"x\": [1,2], \"request\":\"r1\",\"machine\":\"m\",\"task\":\"t\",\"event\":\"e\",\"time\":1}\n \t\r\nnonsense\n{\"request\":\"r1\",\"task\":\"t\",\"event\":\"e\",\"time\":2}\n  {\"do\" : \"add\"} \n{\"do\":\"jump\"}\n[]\n{\"request\":\"r1\",\"machine\":\"m\",\"task\":\"t\",\"event\":\"e2\",\"nanos\":3}\r";

/// A line that is not UTF-8, a good one, and one with a time that is no number.
const G: &[u8] =
    b"\xff\xfe\n{\"do\":\"grace\",\"micros\":5}\n{\"request\":\"r2\",\"machine\":\"m\",\"task\":\"t\",\"event\":\"e\",\"time\":\"4\"}\n";

/// The rows of `F` and `G`.
const ROWS: &[u8] =
    b"lines\tok\t2\t10\t-\tevent lines\nlines\twarn\t3\t10\t-\tnot a JSON object\nlines\twarn\t1\t10\t-\tmissing member\nlines\twarn\t1\t10\t-\twrong kind\nlines\twarn\t1\t10\t-\tunknown command\nbad\twarn\tf\t4\tnot a JSON object\t-\nbad\twarn\tf\t5\tmissing member\tmachine\nbad\twarn\tf\t7\tunknown command\tdo\nbad\twarn\tf\t8\tnot a JSON object\t-\nbad\twarn\tg\t1\tnot a JSON object\t-\nbad\twarn\tg\t3\twrong kind\ttime\ntime\tnote\t3\t1000\t-\tleast and greatest\ntime\tok\t1\t1\t-\tdays\ntime\tok\t0\t1\t-\tno time passes\ntime\tok\t0\t1\t-\tlonger than a day\ntraces\tok\t1\t1\t-\tvalid\nrefused\tok\t0\t1\t-\tslowest twentieth\nclock\tok\t0\t0\t-\tno offset\nclock\tok\t0\t0\t-\tdelays contradict\nmessage\tok\t0\t0\t-\tnever received\nmessage\tok\t0\t0\t-\tnever sent\ncut\tok\t0\t0\t-\tlacks what nine of ten have\nwait\tok\t0\t1\t-\tfrom a send to a receipt\nname\tok\t1\t512\t-\tsegment names\nname\tnote\t1\t1\tt: e2 -> e\tin one trace alone\ntask\tok\t1\t64\t-\ttasks\ngrace\tok\t0\t0\t-\trefuted by few, by less than 1 ms\n";

/// The row of no line at all.
const NONE: &[u8] =
    b"lines\twarn\t0\t0\t-\tevent lines\ntime\tok\t0\t0\t-\tleast and greatest\ntime\tok\t0\t0\t-\tdays\ntime\tok\t0\t0\t-\tno time passes\ntime\tok\t0\t0\t-\tlonger than a day\ntraces\tok\t0\t0\t-\tvalid\nrefused\tok\t0\t0\t-\tslowest twentieth\nclock\tok\t0\t0\t-\tno offset\nclock\tok\t0\t0\t-\tdelays contradict\nmessage\tok\t0\t0\t-\tnever received\nmessage\tok\t0\t0\t-\tnever sent\ncut\tok\t0\t0\t-\tlacks what nine of ten have\nwait\tok\t0\t0\t-\tfrom a send to a receipt\nname\tok\t0\t512\t-\tsegment names\nname\tok\t0\t0\t-\tin one trace alone\ntask\tok\t0\t64\t-\ttasks\ngrace\tok\t0\t0\t-\trefuted by few, by less than 1 ms\n";

#[test]
fn bad_lines_have_their_file_number_reason_and_member(rt: HostRuntime) -> Result<(), Fail> {
    for most in [1, 7, 4096] {
        let setting = Setting {
            words: &["f", "g"],
            f: F,
            g: G,
            most,
            ..SETTING
        };
        expect(&rt, rt.alloc(), setting, 0, ROWS, b"")?;
    }
    Ok(())
}

#[test]
fn blank_lines_are_no_lines(rt: HostRuntime) -> Result<(), Fail> {
    let table: [&[u8]; 4] = [b"", b"\n", b" \t\r\n\n", b"\r"];
    for f in table {
        let setting = Setting { f, ..SETTING };
        expect(&rt, rt.alloc(), setting, 0, NONE, b"")?;
    }
    Ok(())
}
