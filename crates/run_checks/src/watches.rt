use crate::rows::{ADD, OPPOSITE, Row, TOUCHING, input_of};
use crate::running::{Ending, Printed, SETTING, expect_texts, mem_file, run_over, texts};
use Row::{Event, Line};
use mystery_io::{Gate, MemFiles, MemSink};
use std::alloc::{AllocError, Global};
use std::process::Abort;
use std::sync::atomic::{AtomicU64, Ordering};
use std::test::Fail;
use std::thread;
use std::thread::Threads;

const SAME: [Row<'static>; 4] = [
    Event("r3", "a", "s", "0"),
    Event("r3", "a", "e", "10"),
    Event("r3", "b", "s", "10"),
    Event("r3", "b", "e", "30"),
];

const SWAPPED: [Row<'static>; 4] = [
    Event("r4", "b", "s", "0"),
    Event("r4", "b", "e", "5"),
    Event("r4", "a", "s", "5"),
    Event("r4", "a", "e", "9"),
];

const NEXT_DAY: [Row<'static>; 4] = [
    Event("r5", "a", "s", "86400000000"),
    Event("r5", "a", "e", "86400000010"),
    Event("r5", "b", "s", "86400000010"),
    Event("r5", "b", "e", "86400000030"),
];

const WATCH_EACH: [Row<'static>; 1] = [Line("{\"do\":\"watch\",\"every\":1}")];

const WATCH_THIRD: [Row<'static>; 1] = [Line("{\"do\":\"watch\",\"every\":3}")];

const WATCH_NONE: [Row<'static>; 1] = [Line("{\"do\":\"watch\",\"every\":0}")];

/// Waits for a turn that another worker marks, for so many rounds. Answers whether it came.
fn comes(turn: &AtomicU64) -> bool {
    for _ in 0..10_000_000u64 {
        if turn.load(Ordering::SeqCst) == 1 {
            return true;
        }
        thread::yield_now();
    }
    false
}

/// Holds the first turn of each of two workers until the first of the other has come.
#[derive(Drop)]
struct BothFirst {
    zero: AtomicU64,
    one: AtomicU64,
    failed: AtomicU64,
}

impl Gate for BothFirst {
    fn turn(&self, worker: u32, _trace: u32) {
        let (mine, other) = if worker == 0 {
            (&self.zero, &self.one)
        } else {
            (&self.one, &self.zero)
        };
        mine.store(1, Ordering::SeqCst);
        if !comes(other) {
            self.failed.store(1, Ordering::SeqCst);
        }
    }
}

/// Holds turn 0 of worker 0 until turn 1 of worker 1 has come, and that turn until turn 1 of worker
/// 0 has come.
#[derive(Drop)]
struct OneBeforeZero {
    zero: AtomicU64,
    one: AtomicU64,
    failed: AtomicU64,
}

impl Gate for OneBeforeZero {
    fn turn(&self, worker: u32, trace: u32) {
        let came = match (worker, trace) {
            (0, 0) => comes(&self.one),
            (0, 1) => {
                self.zero.store(1, Ordering::SeqCst);
                true
            }
            (1, 1) => {
                self.one.store(1, Ordering::SeqCst);
                comes(&self.zero)
            }
            _ => true,
        };
        if !came {
            self.failed.store(1, Ordering::SeqCst);
        }
    }
}

/// Makes the input of two traces for each of two workers.
fn watched_input(alloc: Global) -> Result<Vec<u8>, AllocError> {
    input_of(
        alloc,
        &[&WATCH_EACH, &TOUCHING, &SAME, &OPPOSITE, &SWAPPED, &[ADD]],
    )
}

/// Makes the file of an input.
fn file_of(alloc: Global, f: &[u8]) -> Result<MemFiles, AllocError> {
    let mut all = Vec::new(alloc);
    all.push(mem_file(alloc, "f", f)?)?;
    Ok(MemFiles::new(all, 4096, Vec::new(alloc)))
}

/// Runs a session of these files with two workers, and returns how it ended.
fn run_session<R: Threads + Sync + Abort, G: Gate + Sync>(
    rt: &R,
    alloc: Global,
    files: &mut MemFiles,
    gate: &G,
) -> Result<Ending, Fail> {
    let words = texts(alloc, &["--workers", "2", "session", "f"])?;
    run_over(rt, alloc, &words, files, SETTING, gate)
}

/// Returns what was written by a run that succeeded.
fn whole_text(rt: &impl Abort, ending: Ending) -> MemSink {
    assert_eq!(rt; ending.err.bytes(), b"".as_slice());
    assert_eq!(rt; ending.status, 0);
    ending.out
}

/// Runs a session of an input with two workers, and returns what was written.
fn run_watched<R: Threads + Sync + Abort, G: Gate + Sync>(
    rt: &R,
    alloc: Global,
    f: &[u8],
    gate: &G,
) -> Result<MemSink, Fail> {
    let mut files = file_of(alloc, f)?;
    let ending = run_session(rt, alloc, &mut files, gate)?;
    Ok(whole_text(rt, ending))
}

/// Runs a session of two traces for each of two workers, and returns what was written.
fn watch_two<R: Threads + Sync + Abort, G: Gate + Sync>(
    rt: &R,
    alloc: Global,
    gate: &G,
) -> Result<MemSink, Fail> {
    let f = watched_input(alloc)?;
    run_watched(rt, alloc, &f, gate)
}

/// Returns the watch number of a line with this beginning: one digit, and then the line's end.
fn watch_number(line: &[u8], before: &[u8]) -> Option<u8> {
    match line.strip_prefix(before) {
        Some([digit]) if digit.is_ascii_digit() => Some(*digit - b'0'),
        _ => None,
    }
}

/// Returns the watch numbers of four lines, two for each worker; none where a text is another.
fn watch_numbers(text: &[u8]) -> Option<[u8; 4]> {
    let mut lines = text.split(|byte| *byte == b'\n');
    let numbers = [
        watch_number(lines.next()?, b"watch\t0\t0\t1\t")?,
        watch_number(lines.next()?, b"watch\t0\t0\t2\t")?,
        watch_number(lines.next()?, b"watch\t0\t1\t1\t")?,
        watch_number(lines.next()?, b"watch\t0\t1\t2\t")?,
    ];
    if lines.next() != Some(b"".as_slice()) || lines.next().is_some() {
        return None;
    }
    Some(numbers)
}

#[test]
fn watch_numbers_are_bounded_and_never_fall(rt: HostRuntime) -> Result<(), Fail> {
    let gate = BothFirst {
        zero: AtomicU64::new(0),
        one: AtomicU64::new(0),
        failed: AtomicU64::new(0),
    };
    let out = watch_two(&rt, rt.alloc(), &gate)?;
    assert_eq!(rt; gate.failed.load(Ordering::SeqCst), 0);
    let numbers = watch_numbers(out.bytes()).ok_or("no watch lines")?;
    assert!(rt; numbers.iter().all(|number| 2 <= *number && *number <= 3));
    let [one, two, three, four] = numbers;
    assert!(rt; one <= two && three <= four);
    Ok(())
}

#[test]
fn a_reading_sees_what_the_other_worker_offered(rt: HostRuntime) -> Result<(), Fail> {
    let gate = OneBeforeZero {
        zero: AtomicU64::new(0),
        one: AtomicU64::new(0),
        failed: AtomicU64::new(0),
    };
    let out = watch_two(&rt, rt.alloc(), &gate)?;
    assert_eq!(rt; gate.failed.load(Ordering::SeqCst), 0);
    assert_eq!(rt;
        out.bytes(),
        b"watch\t0\t0\t1\t3\nwatch\t0\t0\t2\t3\nwatch\t0\t1\t1\t2\nwatch\t0\t1\t2\t3\n".as_slice()
    );
    Ok(())
}

#[test]
fn watch_rows_stand_where_a_worker_has_enough_traces_of_a_day(rt: HostRuntime) -> Result<(), Fail> {
    let table: [Printed<'_>; 3] = [
        (
            "session",
            &[&WATCH_THIRD, &TOUCHING, &OPPOSITE, &NEXT_DAY, &[ADD]],
            b"",
        ),
        (
            "session",
            &[&WATCH_EACH, &WATCH_NONE, &TOUCHING, &[ADD]],
            b"",
        ),
        (
            "session",
            &[&WATCH_EACH, &TOUCHING, &NEXT_DAY, &[ADD]],
            b"watch\t0\t0\t1\t2\nwatch\t1\t0\t1\t2\n",
        ),
    ];
    expect_texts(&rt, rt.alloc(), "1", &table)
}
