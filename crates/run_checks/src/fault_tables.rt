use crate::limits::{events_of, put_tasks};
use crate::page_load::{FIRST, PAGE_LOAD_MODEL, SECOND};
use crate::replays::NOTE;
use crate::rows::{ADD, MODEL, OPPOSITE, Row, TOUCHING, input_of};
use crate::running::{Ending, SETTING, Setting, expect, expect_ending, run_setting};
use crate::sessions::LATER_OVERLAP;
use Row::Line;
use std::alloc::{AllocError, Global};
use std::process::Abort;
use std::test::Fail;
use std::thread::Threads;

/// How many bytes of a file a read gives.
const READ: usize = 100;

/// How many bytes of a text a write takes.
const WRITE: usize = 7;

/// More than any run of these tests has calls.
const CALLS: u32 = 10_000;

const FIRST_FAILED: &[u8] = b"file 1: read failed\n";

const SECOND_FAILED: &[u8] = b"file 2: read failed\n";

/// A session over two days with all texts.
const TWO_DAYS: [Row<'static>; 8] = [
    ADD,
    MODEL,
    Line("{\"do\":\"paths\"}"),
    Line("{\"do\":\"report\"}"),
    Line("{\"do\":\"drop\",\"day\":1}"),
    Line("{\"do\":\"slack\"}"),
    Line("{\"do\":\"keep\",\"days\":1}"),
    Line("{\"do\":\"graph\"}"),
];

/// Returns how many calls open a file and read it to its end, which the last read finds.
fn calls_on(file: &[u8]) -> Result<u32, Fail> {
    Ok(u32::try_from(file.len().div_ceil(READ))?.saturating_add(2))
}

#[test]
fn each_call_on_a_file_fails_in_turn(rt: HostRuntime) -> Result<(), Fail> {
    let alloc = rt.alloc();
    let f = input_of(alloc, &[&FIRST, &SECOND])?;
    let setting = Setting {
        f: &f,
        most: READ,
        ..SETTING
    };
    let calls = calls_on(&f)?;
    for before in 0..calls {
        let failing = before + 1;
        expect(
            &rt,
            alloc,
            Setting { failing, ..setting },
            4,
            b"",
            FIRST_FAILED,
        )?;
    }
    let failing = calls.saturating_add(1);
    expect(
        &rt,
        alloc,
        Setting { failing, ..setting },
        0,
        PAGE_LOAD_MODEL,
        b"",
    )
}

/// Fails each call on two files in turn, until none fails.
fn fail_each_call<R: Threads + Sync + Abort>(
    rt: &R,
    alloc: Global,
    f: &[u8],
    g: &[u8],
) -> Result<(), Fail> {
    let setting = Setting {
        words: &["model", "f", "g"],
        f,
        g,
        most: READ,
        ..SETTING
    };
    let on_first = calls_on(f)?;
    let calls = on_first.saturating_add(calls_on(g)?);
    for before in 0..calls {
        let failing = before + 1;
        let message = if failing <= on_first {
            FIRST_FAILED
        } else {
            SECOND_FAILED
        };
        expect(rt, alloc, Setting { failing, ..setting }, 4, b"", message)?;
    }
    let failing = calls.saturating_add(1);
    expect(
        rt,
        alloc,
        Setting { failing, ..setting },
        0,
        PAGE_LOAD_MODEL,
        b"",
    )
}

#[test]
fn each_call_on_two_files_fails_in_turn(rt: HostRuntime) -> Result<(), Fail> {
    let f = input_of(rt.alloc(), &[&FIRST])?;
    let g = input_of(rt.alloc(), &[&SECOND])?;
    fail_each_call(&rt, rt.alloc(), &f, &g)
}

/// Returns the text of a run that succeeds.
fn whole_text<R: Threads + Sync + Abort>(
    rt: &R,
    alloc: Global,
    setting: Setting<'_>,
) -> Result<Vec<u8>, Fail> {
    let ending = run_setting(rt, alloc, setting)?;
    assert_eq!(rt; ending.err.bytes(), b"".as_slice());
    assert_eq!(rt; ending.status, 0);
    Ok(ending.out.bytes().to_vec(alloc)?)
}

/// Compares a run that succeeded after one that had written so much with the whole text.
fn expect_whole(rt: &impl Abort, ending: &Ending, whole: &[u8], written: usize, most: usize) {
    // The last write that failed would have ended the text.
    assert!(rt; whole.len() <= written.saturating_add(most));
    expect_ending(rt, ending, 0, whole, b"");
}

/// Compares a run whose write failed with a longer prefix of the whole text than this.
fn expect_prefix(rt: &impl Abort, ending: &Ending, whole: &[u8], written: Option<usize>) {
    let out = ending.out.bytes();
    assert!(rt; whole.starts_with(out));
    expect_ending(rt, ending, 5, out, b"write failed\n");
    if let Some(before) = written {
        assert!(rt; out.len() > before);
    }
}

/// Runs where a write fails after so much was written, if anything was tried. Gives how much was
/// written, or nothing where no write failed.
fn fail_write<R: Threads + Sync + Abort>(
    rt: &R,
    alloc: Global,
    setting: Setting<'_>,
    whole: &[u8],
    written: Option<usize>,
) -> Result<Option<usize>, Fail> {
    let ending = run_setting(rt, alloc, setting)?;
    if ending.status == 0 {
        expect_whole(rt, &ending, whole, written.unwrap_or(0), setting.out_most);
        return Ok(None);
    }
    expect_prefix(rt, &ending, whole, written);
    Ok(Some(ending.out.bytes().len()))
}

/// Fails each write to `out` in turn, until none fails, and compares each text with this whole one.
fn fail_writes_of<R: Threads + Sync + Abort>(
    rt: &R,
    alloc: Global,
    setting: Setting<'_>,
    whole: &[u8],
) -> Result<(), Fail> {
    let mut written = None;
    for out_failing in 1..CALLS {
        let failing = Setting {
            out_failing,
            ..setting
        };
        written = fail_write(rt, alloc, failing, whole, written)?;
        if written.is_none() {
            return Ok(());
        }
    }
    panic!(rt; "more writes than were tried");
}

/// Fails each write to `out` in turn, until none fails, and compares each text with the whole one.
fn fail_each_write<R: Threads + Sync + Abort>(
    rt: &R,
    alloc: Global,
    setting: Setting<'_>,
) -> Result<(), Fail> {
    let whole = whole_text(rt, alloc, setting)?;
    fail_writes_of(rt, alloc, setting, &whole)
}

/// Fails each write of the text of these arguments over an input in turn.
fn fail_writes<'a, R: Threads + Sync + Abort>(
    rt: &R,
    alloc: Global,
    words: &'a [&'a str],
    f: &'a [u8],
) -> Result<(), Fail> {
    let setting = Setting {
        words,
        f,
        out_most: WRITE,
        ..SETTING
    };
    fail_each_write(rt, alloc, setting)
}

/// Views of an input.
const VIEWS: [&[&str]; 7] = [
    &["report", "f"],
    &["paths", "f"],
    &["slack", "f"],
    &["graph", "f"],
    &["summarize", "f"],
    &["tail", "f"],
    &[
        "whatif",
        "ads call",
        "call start",
        "call end",
        "0",
        "1",
        "f",
    ],
];

#[test]
fn each_write_of_a_view_fails_in_turn(rt: HostRuntime) -> Result<(), Fail> {
    let f = input_of(rt.alloc(), &[&FIRST, &SECOND])?;
    for words in VIEWS {
        fail_writes(&rt, rt.alloc(), words, &f)?;
    }
    Ok(())
}

/// Makes the input of a session over two days with all texts.
fn two_days(alloc: Global) -> Result<Vec<u8>, AllocError> {
    input_of(alloc, &[&TOUCHING, &OPPOSITE, &LATER_OVERLAP, &TWO_DAYS])
}

#[test]
fn each_write_of_a_text_fails_in_turn(rt: HostRuntime) -> Result<(), Fail> {
    let days = two_days(rt.alloc())?;
    fail_writes(&rt, rt.alloc(), &["session", "f"], &days)?;
    fail_writes(&rt, rt.alloc(), &["replay", "f"], NOTE)?;
    fail_writes(&rt, rt.alloc(), &["drill", "1", "1"], b"")
}

/// The room of the model of 100 names: 4,950 rows of at most 24 bytes.
const GREAT_ROOM: usize = 131_072;

#[test]
fn each_write_of_a_text_that_is_flushed_twice_fails_in_turn(rt: HostRuntime) -> Result<(), Fail> {
    let f = events_of(rt.alloc(), 101)?;
    let setting = Setting {
        f: &f,
        out_most: 10_000,
        out_room: GREAT_ROOM,
        ..SETTING
    };
    fail_each_write(&rt, rt.alloc(), setting)
}

/// Runs with each room that is less than the whole text has bytes, and with just as much.
fn fill_each_room<R: Threads + Sync + Abort>(
    rt: &R,
    alloc: Global,
    setting: Setting<'_>,
    whole: &[u8],
) -> Result<(), Fail> {
    for out_room in 0..whole.len() {
        let full = Setting {
            out_room,
            ..setting
        };
        expect(rt, alloc, full, 5, &whole[..out_room], b"write failed\n")?;
    }
    let out_room = whole.len();
    let just = Setting {
        out_room,
        ..setting
    };
    expect(rt, alloc, just, 0, whole, b"")
}

/// Does so with the text of a session of this input.
fn fill_rooms<R: Threads + Sync + Abort>(rt: &R, alloc: Global, f: &[u8]) -> Result<(), Fail> {
    let setting = Setting {
        words: &["session", "f"],
        f,
        ..SETTING
    };
    let whole = whole_text(rt, alloc, setting)?;
    fill_each_room(rt, alloc, setting, &whole)
}

#[test]
fn a_sink_without_room_has_a_full_prefix(rt: HostRuntime) -> Result<(), Fail> {
    let f = two_days(rt.alloc())?;
    fill_rooms(&rt, rt.alloc(), &f)
}

/// Runs where a write to `err` fails: the status and the text stay. Tells whether none failed.
fn fail_message<R: Threads + Sync + Abort>(
    rt: &R,
    alloc: Global,
    setting: Setting<'_>,
    status: u8,
    out: &[u8],
    message: &[u8],
) -> Result<bool, Fail> {
    let ending = run_setting(rt, alloc, setting)?;
    let err = ending.err.bytes();
    assert!(rt; message.starts_with(err), "write {}", setting.err_failing);
    expect_ending(rt, &ending, status, out, err);
    Ok(err == message)
}

/// Fails each write to `err` in turn, until none fails: the status and the text stay.
fn fail_each_write_of_a_message<R: Threads + Sync + Abort>(
    rt: &R,
    alloc: Global,
    setting: Setting<'_>,
    status: u8,
    out: &[u8],
    message: &[u8],
) -> Result<(), Fail> {
    for err_failing in 1..CALLS {
        let failing = Setting {
            err_failing,
            err_most: WRITE,
            ..setting
        };
        if fail_message(rt, alloc, failing, status, out, message)? {
            return Ok(());
        }
    }
    panic!(rt; "more writes than were tried");
}

/// Makes the input of two tasks, and of 63 more.
fn many_tasks(alloc: Global) -> Result<Vec<u8>, AllocError> {
    let mut bytes = input_of(alloc, &[&TOUCHING, &[ADD, MODEL]])?;
    put_tasks(alloc, &mut bytes, 63)?;
    Ok(bytes)
}

#[test]
fn each_write_of_a_message_fails_in_turn(rt: HostRuntime) -> Result<(), Fail> {
    let tasks = many_tasks(rt.alloc())?;
    let model: &[u8] =
        b"model\ttraces=1\tdays=1\tsegments=2\ttasks=2\thb=1\tmx=0\tpipe=0\nhb\ta\ts\te\tb\ts\te\n";
    let usage: &[u8] = b"usage: mystery [--workers N] COMMAND FILE...\n";
    let table: [(&[&str], &[u8], u32, u8, &[u8], &[u8]); 5] = [
        (&["model"], b"", 0, 2, b"", usage),
        (
            &["model", "f"],
            b"\n{",
            0,
            3,
            b"",
            b"line 2: not a JSON object\n",
        ),
        (&["model", "f", "missing"], b"", 0, 4, b"", SECOND_FAILED),
        (
            &["session", "f"],
            &tasks,
            2,
            5,
            &model[..30],
            b"write failed\n",
        ),
        (&["model", "f"], &tasks, 0, 6, model, b"limit: 65 tasks\n"),
    ];
    for (words, f, out_failing, status, out, message) in table {
        let setting = Setting {
            words,
            f,
            out_failing,
            out_most: 30,
            ..SETTING
        };
        fail_each_write_of_a_message(&rt, rt.alloc(), setting, status, out, message)?;
    }
    Ok(())
}
