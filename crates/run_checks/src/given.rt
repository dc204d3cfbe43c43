use crate::rows::{Row, TOUCHING, input_of};
use crate::running::{
    ROOM, SETTING, Setting, expect, expect_ending, line_feeds, mem_file, run_over, texts,
};
use crate::summaries::ONE_ORDER;
use Row::Line;
use mystery_io::{MemFiles, OpenGate};
use std::alloc::{AllocError, Global};
use std::process::Abort;
use std::test::Fail;
use std::thread::Threads;

const USAGE: &[u8] = b"usage: mystery [--workers N] COMMAND FILE...\n";

const MISSING_FIRST: &[u8] = b"file 1: read failed\n";

const MISSING_SECOND: &[u8] = b"file 2: read failed\n";

const MOST_TRACES: &[u8] = b"limit: 18446744073709551616 traces\n";

#[test]
fn only_views_forecasts_and_the_tail_are_judged_under_what_is_given(
    rt: HostRuntime,
) -> Result<(), Fail> {
    let table: [&[&str]; 16] = [
        &["--given"],
        &["--given", "g"],
        &["--given", "", "model"],
        &["--given", "g", "--given", "", "model", "f"],
        &["--given", "g", "--given", "model"],
        &["--given", "g", "session", "f"],
        &["--given", "g", "why", "f"],
        &["--given", "g", "verify", "g", "f"],
        &["--given", "g", "evidence", "f"],
        &["--given", "g", "drill", "1", "1"],
        &["--given", "g", "replay", "f"],
        &["--given", "g", "paths"],
        &["--given", "g", "tail"],
        &["--given", "g", "model", ""],
        &["--given", "g", "--workers", "2", "model"],
        &["summarize"],
    ];
    for words in table {
        let setting = Setting {
            words,
            f: b" ",
            g: ONE_ORDER,
            ..SETTING
        };
        expect(&rt, rt.alloc(), setting, 2, b"", USAGE)?;
    }
    Ok(())
}

/// Gives these bytes to a model of an input and compares the status and the message.
fn expect_given<R: Threads + Sync + Abort>(
    rt: &R,
    alloc: Global,
    given: &[u8],
    f: &[u8],
    status: u8,
    err: &[u8],
) -> Result<(), Fail> {
    let setting = Setting {
        words: &["--given", "g", "model", "f"],
        f,
        g: given,
        ..SETTING
    };
    expect(rt, alloc, setting, status, b"", err)
}

/// Makes the text of two digests of which the second ends after its header.
fn cut_twice(alloc: Global) -> Result<Vec<u8>, AllocError> {
    let mut text = ONE_ORDER.to_vec(alloc)?;
    text.extend_from_slice(&ONE_ORDER[..40])?;
    Ok(text)
}

/// Gives these bytes to inputs without and with a bad line: the given one is told.
fn expect_bad_first<R: Threads + Sync + Abort>(
    rt: &R,
    alloc: Global,
    given: &[u8],
    err: &[u8],
) -> Result<(), Fail> {
    for f in [b" ".as_slice(), b"\n\n{"] {
        expect_given(rt, alloc, given, f, 3, err)?;
    }
    Ok(())
}

#[test]
fn a_bad_summary_is_told_before_a_bad_line(rt: HostRuntime) -> Result<(), Fail> {
    let table: [(&[u8], &[u8]); 6] = [
        (b"", b"line 1: bad summary\n"),
        (b"\n", b"line 1: bad summary\n"),
        (
            b"summary\ttraces=1\tdays=1\ttasks=0\tnames=0\n",
            b"line 2: bad summary\n",
        ),
        (
            b"summary\ttraces=1\tdays=1\ttasks=0\tnames=0\nday\t07\n",
            b"line 2: bad summary\n",
        ),
        (
            b"summary\ttraces=1\tdays=1\ttasks=0\tnames=0\nday\t7\n\n",
            b"line 3: bad summary\n",
        ),
        (
            b"summary\ttraces=1\tdays=1\ttasks=1\tnames=1\nday\t7\ntask\ta\t\nname\tb\ts\te\t\n",
            b"line 4: bad summary\n",
        ),
    ];
    for (given, err) in table {
        expect_bad_first(&rt, rt.alloc(), given, err)?;
    }
    let cut = cut_twice(rt.alloc())?;
    expect_bad_first(&rt, rt.alloc(), &cut, b"line 8: bad summary\n")
}

#[test]
fn a_bad_line_is_told_under_a_good_summary(rt: HostRuntime) -> Result<(), Fail> {
    let f = input_of(rt.alloc(), &[&TOUCHING, &[Line("{")]])?;
    let err = b"line 5: not a JSON object\n";
    expect_given(&rt, rt.alloc(), ONE_ORDER, &f, 3, err)
}

#[test]
fn the_given_files_are_counted_first(rt: HostRuntime) -> Result<(), Fail> {
    let table: [(&[&str], &[u8]); 5] = [
        (&["model", "--given"], MISSING_FIRST),
        (&["--given", "missing", "model"], MISSING_FIRST),
        (
            &["--given", "g", "--given", "missing", "model", "f"],
            MISSING_SECOND,
        ),
        (&["--given", "g", "summarize", "missing"], MISSING_SECOND),
        (
            &["--given", "g", "--given", "g", "tail", "missing"],
            b"file 3: read failed\n",
        ),
    ];
    for (words, err) in table {
        // A bad summary is told only once the files were read.
        for g in [ONE_ORDER, b"hello"] {
            let setting = Setting {
                words,
                g,
                ..SETTING
            };
            expect(&rt, rt.alloc(), setting, 4, b"", err)?;
        }
    }
    Ok(())
}

#[test]
fn each_call_on_a_given_file_and_a_file_fails_in_turn(rt: HostRuntime) -> Result<(), Fail> {
    // Calls 1 to 3 open and read what is given, 4 to 6 open and read the file.
    for failing in 1..7 {
        let setting = Setting {
            words: &["--given", "g", "summarize", "f"],
            f: b" ",
            g: ONE_ORDER,
            failing,
            ..SETTING
        };
        let err = if failing < 4 {
            MISSING_FIRST
        } else {
            MISSING_SECOND
        };
        expect(&rt, rt.alloc(), setting, 4, b"", err)?;
    }
    let setting = Setting {
        words: &["--given", "g", "summarize", "f"],
        f: b" ",
        g: ONE_ORDER,
        failing: 7,
        ..SETTING
    };
    expect(&rt, rt.alloc(), setting, 0, ONE_ORDER, b"")
}

#[test]
fn no_file_is_read_beside_what_is_given(rt: HostRuntime) -> Result<(), Fail> {
    let setting = Setting {
        words: &["--given", "g", "summarize"],
        g: ONE_ORDER,
        failing: 4,
        ..SETTING
    };
    expect(&rt, rt.alloc(), setting, 0, ONE_ORDER, b"")
}

/// Appends the row of a name of task `a`, which is together with none of so many before it.
fn put_name(
    alloc: Global,
    bytes: &mut Vec<u8>,
    number: u32,
    before: u32,
) -> Result<(), AllocError> {
    let name = format!(in alloc; "name\ta\te{number}\tx\t")?;
    bytes.extend_from_slice(name.as_bytes())?;
    for _ in 0..before {
        bytes.push(b'.')?;
    }
    Ok(bytes.push(b'\n')?)
}

/// Makes the text of a digest of so many names, whose numbers follow this one.
fn names_from(alloc: Global, first: u32, count: u32) -> Result<Vec<u8>, AllocError> {
    let header = format!(in alloc; "summary\ttraces=9\tdays=1\ttasks=1\tnames={count}\n")?;
    let mut bytes = header.as_bytes().to_vec(alloc)?;
    bytes.extend_from_slice(b"day\t0\ntask\ta\t\n")?;
    for before in 0..count {
        put_name(alloc, &mut bytes, first.saturating_add(before), before)?;
    }
    Ok(bytes)
}

/// Makes the text of a digest of this task and one name.
fn put_task(alloc: Global, bytes: &mut Vec<u8>, number: u32) -> Result<(), AllocError> {
    let text = format!(in alloc;
        "summary\ttraces=1\tdays=1\ttasks=1\tnames=1\nday\t0\n\
        task\tt{number}\t\nname\tt{number}\ts\te\t\n"
    )?;
    bytes.extend_from_slice(text.as_bytes())
}

/// Makes the texts of digests of so many tasks.
fn tasks_of(alloc: Global, count: u32) -> Result<Vec<u8>, AllocError> {
    let mut bytes = Vec::new(alloc);
    for number in 0..count {
        put_task(alloc, &mut bytes, number)?;
    }
    Ok(bytes)
}

/// Gives both digests, and compares the status and the message.
fn expect_both<R: Threads + Sync + Abort>(
    rt: &R,
    alloc: Global,
    f: &[u8],
    g: &[u8],
    status: u8,
    err: &[u8],
) -> Result<(), Fail> {
    let setting = Setting {
        words: &["--given", "f", "--given", "g", "model"],
        f,
        g,
        ..SETTING
    };
    expect(rt, alloc, setting, status, b"", err)
}

#[test]
fn given_names_pass_their_limit_together(rt: HostRuntime) -> Result<(), Fail> {
    let f = names_from(rt.alloc(), 100, 300)?;
    let g = names_from(rt.alloc(), 400, 301)?;
    expect_both(&rt, rt.alloc(), &f, &g, 6, b"limit: 601 segment names\n")
}

#[test]
fn given_tasks_pass_their_limit_together(rt: HostRuntime) -> Result<(), Fail> {
    let g = tasks_of(rt.alloc(), 66)?;
    expect_given(&rt, rt.alloc(), &g, b" ", 6, b"limit: 66 tasks\n")
}

/// The digest of as many traces as are counted.
const ALL_TRACES: &[u8] =
    b"summary\ttraces=18446744073709551615\tdays=1\ttasks=0\tnames=0\nday\t7\n";

/// The digest of one trace more.
const ONE_TRACE: &[u8] = b"summary\ttraces=1\tdays=1\ttasks=0\tnames=0\nday\t7\n";

#[test]
fn traces_pass_their_limit_in_what_is_given_and_in_an_add(rt: HostRuntime) -> Result<(), Fail> {
    expect_both(&rt, rt.alloc(), ALL_TRACES, ONE_TRACE, 6, MOST_TRACES)?;
    let f = input_of(rt.alloc(), &[&TOUCHING])?;
    expect_given(&rt, rt.alloc(), ALL_TRACES, &f, 6, MOST_TRACES)
}

#[test]
fn a_bad_line_is_told_before_a_limit_of_what_is_given(rt: HostRuntime) -> Result<(), Fail> {
    let g = tasks_of(rt.alloc(), 66)?;
    expect_given(&rt, rt.alloc(), &g, b"{", 3, b"line 1: not a JSON object\n")
}

/// Makes the files of two given texts, the first of so many line feeds.
fn great_files(alloc: Global, count: usize) -> Result<MemFiles, AllocError> {
    let mut all = Vec::new(alloc);
    all.push(line_feeds(alloc, "c", count)?)?;
    all.push(mem_file(alloc, "d", ONE_ORDER)?)?;
    Ok(MemFiles::new(all, ROOM, Vec::new(alloc)))
}

#[test]
fn all_given_files_have_one_limit(rt: HostRuntime) -> Result<(), Fail> {
    let mut files = great_files(rt.alloc(), 67_108_864)?;
    let words = texts(rt.alloc(), &["--given", "c", "--given", "d", "model"])?;
    let ending = run_over(&rt, rt.alloc(), &words, &mut files, SETTING, &OpenGate)?;
    expect_ending(&rt, &ending, 6, b"", b"limit: input over 67108864 bytes\n");
    Ok(())
}
