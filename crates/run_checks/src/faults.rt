use crate::running::{
    EMPTY, ROOM, SETTING, Setting, expect, expect_ending, line_feeds, run_over, texts,
};
use mystery_io::{MemFiles, OpenGate};
use std::alloc::{AllocError, Global};
use std::process::Abort;
use std::test::Fail;
use std::thread::Threads;

const USAGE: &[u8] = b"usage: mystery [--workers N] COMMAND FILE...\n";

#[test]
fn blank_input_has_the_empty_model(rt: HostRuntime) -> Result<(), Fail> {
    let table: [(&[&str], &[u8], &[u8]); 6] = [
        (&["model", "f"], b"", b""),
        (&["model", "f"], b"\n \t\r\n", b""),
        (&["model", "f", "g"], b" ", b"\t"),
        (&["model", "g", "f", "f"], b"\n", b""),
        (&["--workers", "1", "model", "f"], b"", b""),
        (&["--workers", "64", "model", "f", "g"], b"", b"\r"),
    ];
    for (words, f, g) in table {
        let setting = Setting {
            words,
            f,
            g,
            ..SETTING
        };
        expect(&rt, rt.alloc(), setting, 0, EMPTY, b"")?;
    }
    Ok(())
}

const OUTSIDE_THE_GRAMMAR: [&[&str]; 63] = [
    &[],
    &[""],
    &["model"],
    &["model", ""],
    &["session", "f", ""],
    &["Model", "f"],
    &["paths"],
    &["slack", ""],
    &["graph", "f", ""],
    &["session"],
    &["--workers"],
    &["--workers", "4", "model"],
    &["--workers", "0", "model", "f"],
    &["--workers", "04", "model", "f"],
    &["--workers", "+4", "model", "f"],
    &["--workers", "65", "model", "f"],
    &["--workers", "4", "--workers", "4", "model", "f"],
    &["--help"],
    &["drop", "f"],
    &["report"],
    &["tail"],
    &["tail", "f", ""],
    &["whatif"],
    &["whatif", "f"],
    &["whatif", "b", "s", "e", "1", "2"],
    &["whatif", "b", "s", "e", "1", "2", ""],
    &["whatif", "b", "s", "e", "2", "1", "f"],
    &["whatif", "b", "s", "e", "1", "0", "f"],
    &["whatif", "b", "s", "e", "0", "0", "f"],
    &["whatif", "b", "s", "e", "01", "2", "f"],
    &["whatif", "b", "s", "e", "1", "1000001", "f"],
    &["whatif", "", "s", "e", "1", "2", "f"],
    &["whatif", "b", "", "e", "1", "2", "f"],
    &["whatif", "b", "s", "", "1", "2", "f"],
    &["why"],
    &["why", "f", ""],
    &["verify"],
    &["verify", "f"],
    &["verify", "", "f"],
    &["verify", "f", ""],
    &["verify", "f", "g", ""],
    &["evidence"],
    &["evidence", "f", ""],
    &["evidence", "--reduced"],
    &["evidence", "--least"],
    &["evidence", "--least", "f"],
    &["evidence", "--least", "0", "f"],
    &["evidence", "--least", "02", "f"],
    &["evidence", "--least", "2147483648", "f"],
    &["evidence", "--least", "2", "--least", "2", "f"],
    &["evidence", "--reduced", "--reduced", "f"],
    &["drill"],
    &["drill", "1"],
    &["drill", "1", "0"],
    &["drill", "01", "1"],
    &["drill", "1", "20001"],
    &["drill", "2147483648", "1"],
    &["drill", "1", "1", "f"],
    &["drill", "f"],
    &["replay"],
    &["replay", ""],
    &["replay", "f", "g"],
    &["f"],
];

#[test]
fn arguments_outside_the_grammar_have_status_2(rt: HostRuntime) -> Result<(), Fail> {
    for words in OUTSIDE_THE_GRAMMAR {
        let setting = Setting { words, ..SETTING };
        expect(&rt, rt.alloc(), setting, 2, b"", USAGE)?;
    }
    Ok(())
}

#[test]
fn a_failed_call_on_files_names_the_file(rt: HostRuntime) -> Result<(), Fail> {
    // Calls 1 to 3 open and read f, 4 to 6 open and read g.
    let first: &[u8] = b"file 1: read failed\n";
    let second: &[u8] = b"file 2: read failed\n";
    let table = [
        (1, first),
        (2, first),
        (3, first),
        (4, second),
        (5, second),
        (6, second),
    ];
    for (failing, message) in table {
        let setting = Setting {
            words: &["model", "f", "g"],
            f: b" ",
            g: b" ",
            failing,
            ..SETTING
        };
        expect(&rt, rt.alloc(), setting, 4, b"", message)?;
    }
    let setting = Setting {
        words: &["model", "f", "missing"],
        ..SETTING
    };
    expect(&rt, rt.alloc(), setting, 4, b"", second)
}

#[test]
fn a_failed_write_leaves_a_prefix_of_the_text(rt: HostRuntime) -> Result<(), Fail> {
    let table: [(usize, u32, u8, &[u8], &[u8]); 4] = [
        (1, 0, 0, EMPTY, b""),
        (1, 3, 5, b"mo", b"write failed\n"),
        (7, 1, 5, b"", b"write failed\n"),
        (7, 9, 5, &EMPTY[..56], b"write failed\n"),
    ];
    for (out_most, out_failing, status, out, err) in table {
        let setting = Setting {
            out_most,
            out_failing,
            ..SETTING
        };
        expect(&rt, rt.alloc(), setting, status, out, err)?;
    }
    Ok(())
}

#[test]
fn a_failed_message_leaves_the_status(rt: HostRuntime) -> Result<(), Fail> {
    let table: [(&[&str], &[u8], u8); 3] = [
        (&["sessions", "f"], b"", 2),
        (&["model", "f"], b"{", 3),
        (&["model", "missing"], b"", 4),
    ];
    for (words, f, status) in table {
        let setting = Setting {
            words,
            f,
            err_failing: 1,
            ..SETTING
        };
        expect(&rt, rt.alloc(), setting, status, b"", b"")?;
    }
    Ok(())
}

/// Makes the file of an input of so many line feeds.
fn blank_file(alloc: Global, count: usize) -> Result<MemFiles, AllocError> {
    let mut all = Vec::new(alloc);
    all.push(line_feeds(alloc, "f", count)?)?;
    Ok(MemFiles::new(all, ROOM, Vec::new(alloc)))
}

/// Prints the model of these files and compares the status and what is written.
fn expect_model<R: Threads + Sync + Abort>(
    rt: &R,
    alloc: Global,
    files: &mut MemFiles,
    status: u8,
    out: &[u8],
    err: &[u8],
) -> Result<(), Fail> {
    let words = texts(alloc, SETTING.words)?;
    let ending = run_over(rt, alloc, &words, files, SETTING, &OpenGate)?;
    expect_ending(rt, &ending, status, out, err);
    Ok(())
}

/// Prints the model of so many line feeds and compares the status and what is written.
fn expect_blank<R: Threads + Sync + Abort>(
    rt: &R,
    alloc: Global,
    count: usize,
    status: u8,
    out: &[u8],
    err: &[u8],
) -> Result<(), Fail> {
    let mut files = blank_file(alloc, count)?;
    expect_model(rt, alloc, &mut files, status, out, err)
}

#[test]
fn the_size_is_passed_by_one_line_feed_more(rt: HostRuntime) -> Result<(), Fail> {
    let limit: &[u8] = b"limit: input over 67108864 bytes\n";
    let table: [(usize, u8, &[u8], &[u8]); 2] = [
        (67_108_864, 0, EMPTY, b""),
        (67_108_865, 6, b"", limit),
    ];
    for (count, status, out, err) in table {
        expect_blank(&rt, rt.alloc(), count, status, out, err)?;
    }
    Ok(())
}
