use crate::running::{SETTING, Setting, expect};
use std::test::Fail;

/// Two seats that clear one word: the steps.
const WHOLE_ROWS: &[u8] = b"open 1 2
split 0 1
clear 0 0:1
clear 1 0:4
load 0 0
close 0
join 0 1
close 0
load 0 0
";

/// Their rows.
const WHOLE_ROWS_TEXT: &[u8] = b"opened\t1\t2
split\t0\t1
cleared\t0\tffffffffffffffff
cleared\t1\tfffffffffffffffe
loaded\t0\t0\tfffffffffffffffa
shares out\t1\t2
joined\t0\t1
closed\t0\tfffffffffffffffa
no seat\t0
";

/// A row in progress: the steps.
const ROW_IN_PROGRESS: &[u8] = b"open 2 1
clear 0 0:1 1:1
load 0 0
clear 0 0:1 1:1
load 0 1
clear 0 2:1
split 0 1
split 0 0
clear 1 0:2
close 0
";

/// Their rows.
const ROW_IN_PROGRESS_TEXT: &[u8] = b"opened\t2\t1
cleared\t0\tffffffffffffffff
row open\t0
cleared\t0\tffffffffffffffff
loaded\t0\t1\tfffffffffffffffe
bad word\t2\t2
bad share\t1\t1
split\t0\t1
bad share\t0\t1
closed\t0\tfffffffffffffffe\tfffffffffffffffe
";

/// A reading that misses an entry, a note, and the reading that has it: the steps.
pub(crate) const NOTE: &[u8] = b"open 2 2\n\nsplit 0 1\nclear 0 0:1 1:4\nload 1 0\nload 1 1\n \t\r
clear 0 0:1 1:4\nsplit 0 0\njoin 1 2\nload 1 1\njoin 0 1\nclose 0";

/// Their rows.
const NOTE_TEXT: &[u8] = b"opened\t2\t2
split\t0\t1
cleared\t0\tffffffffffffffff
loaded\t1\t0\tfffffffffffffffe
loaded\t1\t1\tffffffffffffffff
cleared\t0\tffffffffffffffff
split\t0\t2
joined\t1\t2
loaded\t1\t1\tfffffffffffffffb
joined\t0\t1
closed\t0\tfffffffffffffffe\tfffffffffffffffb
";

#[test]
fn each_step_prints_its_reply_or_its_fault(rt: HostRuntime) -> Result<(), Fail> {
    let table: [(&[u8], &[u8]); 6] = [
        (WHOLE_ROWS, WHOLE_ROWS_TEXT),
        (ROW_IN_PROGRESS, ROW_IN_PROGRESS_TEXT),
        (NOTE, NOTE_TEXT),
        (b"open 8302 4294967295", b"opened\t8302\t4294967295\n"),
        (b"", b""),
        (b"\n \t\r\n\n", b""),
    ];
    for (f, out) in table {
        let setting = Setting {
            words: &["replay", "f"],
            f,
            ..SETTING
        };
        expect(&rt, rt.alloc(), setting, 0, out, b"")?;
    }
    let setting = Setting {
        words: &["--workers", "64", "replay", "f"],
        f: WHOLE_ROWS,
        ..SETTING
    };
    expect(&rt, rt.alloc(), setting, 0, WHOLE_ROWS_TEXT, b"")
}

#[test]
fn the_first_bad_step_is_told(rt: HostRuntime) -> Result<(), Fail> {
    let table: [(&[u8], &[u8]); 4] = [
        (b"load 0 0\n", b"line 1: bad step\n"),
        (b"\nopen 8303 1\nx\n", b"line 2: bad step\n"),
        (b"open 1 1\n\nload 0  0\nx\n", b"line 3: bad step\n"),
        (b"open 1 1\nclear 0 0:A\n", b"line 2: bad step\n"),
    ];
    for (f, err) in table {
        let setting = Setting {
            words: &["replay", "f"],
            f,
            ..SETTING
        };
        expect(&rt, rt.alloc(), setting, 3, b"", err)?;
    }
    Ok(())
}

#[test]
fn a_replay_meets_faults_of_files_and_sinks(rt: HostRuntime) -> Result<(), Fail> {
    let setting = Setting {
        words: &["replay", "f"],
        f: WHOLE_ROWS,
        ..SETTING
    };
    let unread = Setting {
        failing: 2,
        ..setting
    };
    expect(&rt, rt.alloc(), unread, 4, b"", b"file 1: read failed\n")?;
    let unwritten = Setting {
        out_most: 1,
        out_failing: 3,
        ..setting
    };
    expect(&rt, rt.alloc(), unwritten, 5, b"op", b"write failed\n")
}
