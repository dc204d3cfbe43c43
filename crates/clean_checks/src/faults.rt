use crate::running::{SETTING, Setting, expect};
use std::test::Fail;

const USAGE: &[u8] = b"usage: mystery clean FILE...\n";

const OUTSIDE_THE_GRAMMAR: [&[&str]; 4] = [&[], &[""], &["f", ""], &["", "g"]];

const ADD: &[u8] = b"{\"do\":\"add\"}\n";

const TWICE: &[u8] = b"{\"do\":\"add\"}\n{\"do\":\"add\"}\n";

#[test]
fn arguments_outside_the_grammar_are_refused(rt: HostRuntime) -> Result<(), Fail> {
    for words in OUTSIDE_THE_GRAMMAR {
        let setting = Setting {
            words,
            f: ADD,
            ..SETTING
        };
        expect(&rt, rt.alloc(), setting, 2, b"", USAGE)?;
    }
    Ok(())
}

#[test]
fn a_file_that_is_not_there_is_named(rt: HostRuntime) -> Result<(), Fail> {
    let setting = Setting {
        words: &["f", "no file", "g"],
        f: TWICE,
        g: ADD,
        ..SETTING
    };
    expect(
        &rt,
        rt.alloc(),
        setting,
        4,
        TWICE,
        b"no file: read failed\n",
    )
}

#[test]
fn what_was_read_before_a_failed_read_is_printed(rt: HostRuntime) -> Result<(), Fail> {
    // The first call opens `f`, the next two read 13 bytes each, and the fourth fails.
    let setting = Setting {
        f: TWICE,
        most: 13,
        failing: 4,
        ..SETTING
    };
    expect(&rt, rt.alloc(), setting, 4, TWICE, b"f: read failed\n")
}

#[test]
fn a_failed_write_ends_the_run(rt: HostRuntime) -> Result<(), Fail> {
    let setting = Setting {
        words: &["f", "g"],
        f: ADD,
        g: ADD,
        out_failing: 2,
        ..SETTING
    };
    expect(&rt, rt.alloc(), setting, 5, ADD, b"write failed\n")
}

#[test]
fn a_message_that_fails_leaves_the_status(rt: HostRuntime) -> Result<(), Fail> {
    let setting = Setting {
        words: &["no file"],
        err_failing: 1,
        ..SETTING
    };
    expect(&rt, rt.alloc(), setting, 4, b"", b"")
}
