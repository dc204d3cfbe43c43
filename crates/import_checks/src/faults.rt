use crate::running::{SETTING, Setting, expect};
use std::test::Fail;

const USAGE: &[u8] =
    b"usage: mystery import FORM [--grace MICROS] [--entry NAME] [--fold] [FILE]...\n";

const ADD: &[u8] = b"{\"do\":\"add\"}\n";

const OUTSIDE_THE_GRAMMAR: [&[&str]; 15] = [
    &[],
    &[""],
    &["f"],
    &["otlp", "f", "--fold"],
    &["otlp", "--entry"],
    &["otlp", "--grace", "x", "f"],
    &["otlp", "--grace", "3600000001", "f"],
    &["jaeger", "--every", "f"],
    &["zipkin", "-", "-"],
    &["events", "--fold", "f"],
    &["events", "--grace", "5", "f"],
    &["events", "f", ""],
    &["events", "-", "-"],
    &["events", "--route", "f"],
    &["Events", "f"],
];

#[test]
fn arguments_outside_the_grammar_are_refused(rt: HostRuntime) -> Result<(), Fail> {
    for words in OUTSIDE_THE_GRAMMAR {
        let setting = Setting {
            words,
            f: ADD,
            ..SETTING
        };
        expect(&rt, rt.alloc(), setting, 2, b"", USAGE)?;
    }
    Ok(())
}

#[test]
fn no_file_is_standard_input(rt: HostRuntime) -> Result<(), Fail> {
    let table: [&[&str]; 2] = [&["events"], &["events", "-"]];
    for words in table {
        let setting = Setting { words, ..SETTING };
        expect(&rt, rt.alloc(), setting, 4, b"", b"file 1: read failed\n")?;
    }
    Ok(())
}

#[test]
fn the_first_fault_in_the_order_of_files_is_told(rt: HostRuntime) -> Result<(), Fail> {
    let table: [(&[&str], u8, &[u8]); 4] = [
        (
            &["events", "f", "g"],
            3,
            b"file 2: line 3: not a JSON object\n",
        ),
        (
            &["events", "g", "no file"],
            3,
            b"file 1: line 3: not a JSON object\n",
        ),
        (
            &["events", "f", "no file", "g"],
            4,
            b"file 2: read failed\n",
        ),
        (&["events", "f", "f"], 0, b""),
    ];
    for (words, status, message) in table {
        let setting = Setting {
            words,
            f: ADD,
            g: b"{\"do\":\"add\"}\n\n{\"do\":\n",
            ..SETTING
        };
        let out = if status == 0 {
            b"{\"do\":\"add\"}\n{\"do\":\"add\"}\n".as_slice()
        } else {
            b"".as_slice()
        };
        expect(&rt, rt.alloc(), setting, status, out, message)?;
    }
    Ok(())
}

#[test]
fn a_fault_of_a_file_or_a_sink_is_told(rt: HostRuntime) -> Result<(), Fail> {
    let setting = Setting { f: ADD, ..SETTING };
    let alloc = rt.alloc();
    let failing = Setting {
        failing: 1,
        ..setting
    };
    expect(&rt, alloc, failing, 4, b"", b"file 1: read failed\n")?;
    let failing = Setting {
        out_failing: 1,
        ..setting
    };
    expect(&rt, alloc, failing, 5, b"", b"write failed\n")?;
    let failing = Setting {
        out_failing: 1,
        err_failing: 1,
        ..setting
    };
    expect(&rt, alloc, failing, 5, b"", b"")
}
