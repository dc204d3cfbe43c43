use crate::running::{SETTING, Setting, expect};
use std::test::Fail;

const OUTSIDE_THE_GRAMMAR: [&[&str]; 3] = [&[""], &["f", "g"], &["f", ""]];

/// Arguments that name standard input, of which the files in memory have none.
const STANDARD_INPUT: [&[&str]; 3] = [&[], &["-"], &["/dev/stdin"]];

/// Texts that are no page, each with what is said of it.
const BAD: [(&[u8], &[u8]); 6] = [
    (
        b"",
        b"line 2: bad row: the page ends before its last part\n",
    ),
    (b"\xff\n", b"line 1: bad row: not UTF-8\n"),
    (
        b"\nreport\t0\t0\t0\n",
        b"line 2: bad row: no row of a page\n",
    ),
    (
        b"report\ttraces=x\tcritical=0\n",
        b"line 1: bad row: a field is no number\n",
    ),
    (b"latency\t0\t0\t0\t0\n", b"line 1: bad row: out of place\n"),
    (
        b"report\ttraces=0\tcritical=0\n",
        b"line 3: bad row: the page ends before its last part\n",
    ),
];

#[test]
fn arguments_outside_the_grammar_are_refused(rt: HostRuntime) -> Result<(), Fail> {
    for words in OUTSIDE_THE_GRAMMAR {
        let setting = Setting { words, ..SETTING };
        expect(
            &rt,
            rt.alloc(),
            setting,
            2,
            b"",
            b"usage: mystery view [PAGE]\n",
        )?;
    }
    Ok(())
}

#[test]
fn the_first_bad_line_is_told(rt: HostRuntime) -> Result<(), Fail> {
    for (f, message) in BAD {
        let setting = Setting {
            f,
            most: 5,
            ..SETTING
        };
        expect(&rt, rt.alloc(), setting, 3, b"", message)?;
    }
    Ok(())
}

#[test]
fn standard_input_is_read_without_an_argument(rt: HostRuntime) -> Result<(), Fail> {
    for words in STANDARD_INPUT {
        let setting = Setting { words, ..SETTING };
        expect(
            &rt,
            rt.alloc(),
            setting,
            4,
            b"",
            b"/dev/stdin: read failed\n",
        )?;
    }
    Ok(())
}

#[test]
fn a_message_that_fails_leaves_the_status(rt: HostRuntime) -> Result<(), Fail> {
    let setting = Setting {
        words: &["no file"],
        err_failing: 1,
        ..SETTING
    };
    expect(&rt, rt.alloc(), setting, 4, b"", b"")
}
