use crate::running::{SETTING, Setting, expect};
use std::test::Fail;

const USAGE: &[u8] = b"usage: mystery inspect FILE...\n";

const OUTSIDE_THE_GRAMMAR: [&[&str]; 4] = [&[], &[""], &["f", ""], &["", "g"]];

const ADD: &[u8] = b"{\"do\":\"add\"}\n";

/// The rows of `ADD`.
const ROWS: &[u8] =
    b"lines\twarn\t0\t1\t-\tevent lines\ntime\tok\t0\t0\t-\tleast and greatest\ntime\tok\t0\t0\t-\tdays\ntime\tok\t0\t0\t-\tno time passes\ntime\tok\t0\t0\t-\tlonger than a day\ntraces\tok\t0\t0\t-\tvalid\nrefused\tok\t0\t0\t-\tslowest twentieth\nclock\tok\t0\t0\t-\tno offset\nclock\tok\t0\t0\t-\tdelays contradict\nmessage\tok\t0\t0\t-\tnever received\nmessage\tok\t0\t0\t-\tnever sent\ncut\tok\t0\t0\t-\tlacks what nine of ten have\nwait\tok\t0\t0\t-\tfrom a send to a receipt\nname\tok\t0\t512\t-\tsegment names\nname\tok\t0\t0\t-\tin one trace alone\ntask\tok\t0\t64\t-\ttasks\ngrace\tok\t0\t0\t-\trefuted by few, by less than 1 ms\n";

#[test]
fn arguments_outside_the_grammar_are_refused(rt: HostRuntime) -> Result<(), Fail> {
    for words in OUTSIDE_THE_GRAMMAR {
        let setting = Setting {
            words,
            f: ADD,
            ..SETTING
        };
        expect(&rt, rt.alloc(), setting, 2, b"", USAGE)?;
    }
    Ok(())
}

#[test]
fn a_file_that_is_not_there_is_named(rt: HostRuntime) -> Result<(), Fail> {
    let setting = Setting {
        words: &["f", "no file", "g"],
        f: ADD,
        g: ADD,
        ..SETTING
    };
    expect(&rt, rt.alloc(), setting, 4, b"", b"no file: read failed\n")
}

#[test]
fn a_failed_read_ends_the_run(rt: HostRuntime) -> Result<(), Fail> {
    // The first call opens `f`, the second reads some of it, and the third fails.
    let setting = Setting {
        f: ADD,
        most: 3,
        failing: 3,
        ..SETTING
    };
    expect(&rt, rt.alloc(), setting, 4, b"", b"f: read failed\n")
}

#[test]
fn a_failed_write_ends_the_run(rt: HostRuntime) -> Result<(), Fail> {
    let setting = Setting {
        f: ADD,
        most: 14,
        out_failing: 2,
        ..SETTING
    };
    expect(
        &rt,
        rt.alloc(),
        setting,
        5,
        b"lines\twarn\t0\t1",
        b"write failed\n",
    )
}

#[test]
fn a_message_that_fails_leaves_the_status(rt: HostRuntime) -> Result<(), Fail> {
    let setting = Setting {
        words: &["no file"],
        err_failing: 1,
        ..SETTING
    };
    expect(&rt, rt.alloc(), setting, 4, b"", b"")
}

#[test]
fn a_run_that_is_done_prints_its_rows(rt: HostRuntime) -> Result<(), Fail> {
    let setting = Setting { f: ADD, ..SETTING };
    expect(&rt, rt.alloc(), setting, 0, ROWS, b"")
}
