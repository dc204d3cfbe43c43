use crate::rows::{ADD, MODEL, TOUCHING, input_of, put_whole_event};
use crate::running::{ROOM, SETTING, Setting, expect, run_setting};
use std::alloc::{AllocError, Global};
use std::process::Abort;
use std::test::Fail;
use std::thread::Threads;

/// The length of a day in microseconds.
const DAY: u64 = 86_400_000_000;

/// Appends one event on a day.
fn put_day(alloc: Global, bytes: &mut Vec<u8>, day: u8) -> Result<(), AllocError> {
    let request = format!(in alloc; "r{day}")?;
    let time = format!(in alloc; "{}", u64::from(day) * DAY)?;
    put_whole_event(bytes, &request, "a", "s", &time)
}

/// Appends one event on each of these days, and an add after all of them or after each.
fn put_days(alloc: Global, bytes: &mut Vec<u8>, days: u8, each: bool) -> Result<(), AllocError> {
    for day in 0..days {
        put_day(alloc, bytes, day)?;
        if each {
            bytes.extend_from_slice(b"{\"do\":\"add\"}\n")?;
        }
    }
    bytes.extend_from_slice(b"{\"do\":\"add\"}\n")
}

/// Makes the input of one event on each of these days, with an add after all of them or after each.
fn days_of(alloc: Global, days: u8, each: bool) -> Result<Vec<u8>, AllocError> {
    let mut bytes = Vec::new(alloc);
    put_days(alloc, &mut bytes, days, each)?;
    Ok(bytes)
}

/// Appends an event of this request and task, whose name and time have this number.
fn put_numbered(
    alloc: Global,
    bytes: &mut Vec<u8>,
    request: &str,
    task: &str,
    number: u32,
) -> Result<(), AllocError> {
    let event = format!(in alloc; "e{number}")?;
    let time = format!(in alloc; "{number}")?;
    put_whole_event(bytes, request, task, &event, &time)
}

/// Appends so many events of one task of this request, each with a name of its own.
fn put_events(
    alloc: Global,
    bytes: &mut Vec<u8>,
    request: &str,
    task: &str,
    count: u32,
) -> Result<(), AllocError> {
    for number in 0..count {
        put_numbered(alloc, bytes, request, task, number)?;
    }
    Ok(())
}

/// Makes the input of so many events of one task of one trace.
pub(crate) fn events_of(alloc: Global, count: u32) -> Result<Vec<u8>, AllocError> {
    let mut bytes = Vec::new(alloc);
    put_events(alloc, &mut bytes, "r1", "a", count)?;
    Ok(bytes)
}

/// Appends two events of a task.
fn put_task(alloc: Global, bytes: &mut Vec<u8>, number: u32) -> Result<(), AllocError> {
    let task = format!(in alloc; "t{number}")?;
    put_whole_event(bytes, "r1", &task, "s", "0")?;
    put_whole_event(bytes, "r1", &task, "e", "1")
}

/// Appends two events of each of so many tasks.
pub(crate) fn put_tasks(alloc: Global, bytes: &mut Vec<u8>, count: u32) -> Result<(), AllocError> {
    for number in 0..count {
        put_task(alloc, bytes, number)?;
    }
    Ok(())
}

/// Carries out a session of this input and compares the status and what is written.
fn expect_session<R: Threads + Sync + Abort>(
    rt: &R,
    alloc: Global,
    f: &[u8],
    status: u8,
    out: &[u8],
    err: &[u8],
) -> Result<(), Fail> {
    let setting = Setting {
        words: &["session", "f"],
        f,
        ..SETTING
    };
    expect(rt, alloc, setting, status, out, err)
}

/// Carries out a session of one event on each of these days.
fn expect_days<R: Threads + Sync + Abort>(
    rt: &R,
    alloc: Global,
    days: u8,
    each: bool,
    status: u8,
    err: &[u8],
) -> Result<(), Fail> {
    let f = days_of(alloc, days, each)?;
    expect_session(rt, alloc, &f, status, b"", err)
}

#[test]
fn an_add_passes_the_limit_of_days(rt: HostRuntime) -> Result<(), Fail> {
    let limit: &[u8] = b"limit: 65 days\n";
    let table: [(u8, bool, u8, &[u8]); 4] = [
        (64, false, 0, b""),
        (65, false, 6, limit),
        (64, true, 0, b""),
        (65, true, 6, limit),
    ];
    for (days, each, status, err) in table {
        expect_days(&rt, rt.alloc(), days, each, status, err)?;
    }
    Ok(())
}

/// Appends an event of the 65th day, and an add and a model after it.
fn put_later_day(bytes: &mut Vec<u8>) -> Result<(), AllocError> {
    bytes.extend_from_slice(b"{\"do\":\"keep\",\"days\":64}\n")?;
    put_whole_event(bytes, "r64", "a", "s", "5529600000000")?;
    bytes.extend_from_slice(b"{\"do\":\"add\"}\n{\"do\":\"model\"}\n")
}

/// Makes the input of 64 days that are kept, and of a day too many.
fn many_days(alloc: Global) -> Result<Vec<u8>, AllocError> {
    let mut bytes = days_of(alloc, 64, false)?;
    put_later_day(&mut bytes)?;
    Ok(bytes)
}

/// Appends so many names more, and an add and a model after them.
fn put_later_names(alloc: Global, bytes: &mut Vec<u8>) -> Result<(), AllocError> {
    put_events(alloc, bytes, "r2", "c", 512)?;
    bytes.extend_from_slice(b"{\"do\":\"add\"}\n{\"do\":\"model\"}\n")
}

/// Makes the input of two names, and of 511 names more.
fn many_names(alloc: Global) -> Result<Vec<u8>, AllocError> {
    let mut bytes = input_of(alloc, &[&TOUCHING, &[ADD, MODEL]])?;
    put_later_names(alloc, &mut bytes)?;
    Ok(bytes)
}

/// Carries out a session of a day too many.
fn expect_many_days<R: Threads + Sync + Abort>(rt: &R, alloc: Global) -> Result<(), Fail> {
    let f = many_days(alloc)?;
    expect_session(rt, alloc, &f, 6, b"keep\t64\t0\n", b"limit: 65 days\n")
}

/// Carries out a session of a name too many.
fn expect_many_names<R: Threads + Sync + Abort>(rt: &R, alloc: Global) -> Result<(), Fail> {
    let f = many_names(alloc)?;
    let out = b"model\ttraces=1\tdays=1\tsegments=2\ttasks=2\thb=1\tmx=0\tpipe=0\n\
        hb\ta\ts\te\tb\ts\te\n";
    expect_session(rt, alloc, &f, 6, out, b"limit: 513 segment names\n")
}

#[test]
fn the_text_before_an_add_that_passes_a_limit_is_whole(rt: HostRuntime) -> Result<(), Fail> {
    expect_many_days(&rt, rt.alloc())?;
    expect_many_names(&rt, rt.alloc())
}

/// Makes the input of so many events of one trace, and an add.
fn one_trace(alloc: Global, count: u32) -> Result<Vec<u8>, AllocError> {
    let mut bytes = events_of(alloc, count)?;
    bytes.extend_from_slice(b"{\"do\":\"add\"}\n")?;
    Ok(bytes)
}

/// Carries out a session of one trace of so many events.
fn expect_events<R: Threads + Sync + Abort>(
    rt: &R,
    alloc: Global,
    count: u32,
    status: u8,
    err: &[u8],
) -> Result<(), Fail> {
    let f = one_trace(alloc, count)?;
    expect_session(rt, alloc, &f, status, b"", err)
}

/// Makes the input of two events of each of so many tasks.
fn tasks_of(alloc: Global, count: u32) -> Result<Vec<u8>, AllocError> {
    let mut bytes = Vec::new(alloc);
    put_tasks(alloc, &mut bytes, count)?;
    Ok(bytes)
}

/// Prints the model of so many tasks.
fn expect_tasks<R: Threads + Sync + Abort>(
    rt: &R,
    alloc: Global,
    count: u32,
    status: u8,
    out: &[u8],
    err: &[u8],
) -> Result<(), Fail> {
    let f = tasks_of(alloc, count)?;
    expect(rt, alloc, Setting { f: &f, ..SETTING }, status, out, err)
}

#[test]
fn a_trace_passes_the_limit_of_names_or_of_tasks(rt: HostRuntime) -> Result<(), Fail> {
    let alloc = rt.alloc();
    expect_events(&rt, alloc, 513, 0, b"")?;
    expect_events(&rt, alloc, 514, 6, b"limit: 513 segment names\n")?;
    let model = b"model\ttraces=1\tdays=1\tsegments=64\ttasks=64\thb=0\tmx=0\tpipe=0\n";
    expect_tasks(&rt, alloc, 64, 0, model, b"")?;
    expect_tasks(&rt, alloc, 65, 6, b"", b"limit: 65 tasks\n")
}

/// The room of the model of 512 names: 130,816 rows of at most 30 bytes.
const GREAT_ROOM: usize = 4_194_304;

/// Runs and compares the beginning of the text.
fn expect_start<R: Threads + Sync + Abort>(
    rt: &R,
    alloc: Global,
    setting: Setting<'_>,
    start: &[u8],
) -> Result<(), Fail> {
    let ending = run_setting(rt, alloc, setting)?;
    assert!(rt; ending.status == 0 && ending.out.bytes().starts_with(start));
    Ok(())
}

#[test]
fn a_model_of_512_names_has_each_pair_of_them(rt: HostRuntime) -> Result<(), Fail> {
    let f = events_of(rt.alloc(), 513)?;
    let setting = Setting {
        f: &f,
        most: ROOM,
        out_room: GREAT_ROOM,
        ..SETTING
    };
    let header = b"model\ttraces=1\tdays=1\tsegments=512\ttasks=1\thb=130816\tmx=0\tpipe=0\n";
    expect_start(&rt, rt.alloc(), setting, header)
}

#[test]
fn a_trace_of_4097_events_is_refused(rt: HostRuntime) -> Result<(), Fail> {
    let f = events_of(rt.alloc(), 4097)?;
    let setting = Setting { f: &f, ..SETTING };
    let out = b"refused\tr1\ttoo many events\t4097\n\
        model\ttraces=0\tdays=0\tsegments=0\ttasks=0\thb=0\tmx=0\tpipe=0\n";
    expect(&rt, rt.alloc(), setting, 0, out, b"")
}
