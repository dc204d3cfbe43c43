//! Workers that record the traces of a day in one table.
ghost use Rattle.std.specs.Prelude.{◌^◌, ◌<◌, All, length};
ghost use Rattle.refute_tests.specs.Clearing.{HaveNamesBelow};

use crate::gates::{BothFirst, MeetingGate, OneBeforeZero, PassingGate};
use crate::traces::{BOTH, TOUCHED, day_of};
use mystery_io::{Gate, OpenGate};
use pipeline_tests::DaySheet;
use std::alloc::{AllocError, Global};
use std::test::Fail;
use std::thread::Threads;
use trace_pass::{Recorder, WatchLines, offer_all};
use trace_rules::WatchLine;
use trace_types::NamedTrace;

/// Offers such a day by so many workers through a gate and closes. Gives nothing where memory ran
/// out.
fn sheet_by<R: Threads + Sync, G: Gate + Sync>(
    rt: &R,
    alloc: Global,
    workers: u32,
    traces: Vec<NamedTrace>,
    every: u32,
    gate: &G,
) -> Option<(DaySheet, WatchLines)>
    requires some { 0 < workers }
    requires names { All (HaveNamesBelow 2) traces.items }
    requires few { length traces.items < 2 ^ 32 }
{
    let Ok((recorder, recording)) = Recorder::open(alloc, 2, workers) else {
        return None;
    };
    let Ok((recording, lines)) = offer_all(rt, &recorder, recording, traces, every, gate) else {
        return None;
    };
    match recorder.close(recording) {
        Ok(sheet) => Some((sheet, lines)),
        Err(_) => None,
    }
}

/// Records a day of so many traces, of which so many first ones are touching, by so many workers
/// through a gate. Gives nothing where memory ran out.
fn record_day<R: Threads + Sync, G: Gate + Sync>(
    rt: &R,
    alloc: Global,
    workers: u32,
    day: (u32, u32),
    every: u32,
    gate: &G,
) -> Option<(DaySheet, WatchLines)>
    requires { 0 < workers }
{
    let Ok(traces) = day_of(alloc, day.0, day.1) else {
        return None;
    };
    sheet_by(rt, alloc, workers, traces, every, gate)
}

/// Offers a day by two workers through a gate. Gives the watch lines and the shares of the pass, or
/// nothing where memory ran out.
fn offer_by_two<R: Threads + Sync, G: Gate + Sync>(
    rt: &R,
    alloc: Global,
    traces: Vec<NamedTrace>,
    every: u32,
    gate: &G,
) -> Option<(WatchLines, u32)>
    requires names { All (HaveNamesBelow 2) traces.items }
    requires few { length traces.items < 2 ^ 32 }
{
    let Ok((recorder, recording)) = Recorder::open(alloc, 2, 2) else {
        return None;
    };
    let Ok((recording, lines)) = offer_all(rt, &recorder, recording, traces, every, gate) else {
        return None;
    };
    Some((lines, recording.shares()))
}

/// The same of a day of so many traces, of which so many first ones are touching.
fn offer_day<R: Threads + Sync, G: Gate + Sync>(
    rt: &R,
    alloc: Global,
    day: (u32, u32),
    every: u32,
    gate: &G,
) -> Option<(WatchLines, u32)> {
    let Ok(traces) = day_of(alloc, day.0, day.1) else {
        return None;
    };
    offer_by_two(rt, alloc, traces, every, gate)
}

#[test]
fn two_workers_run_beside_each_other(rt: HostRuntime) -> Result<(), Fail> {
    let gate = BothFirst::new();
    let (_lines, shares) = offer_day(&rt, rt.alloc(), (1, 2), 0, &gate).ok_or("memory")?;
    assert_eq!(rt; (shares, gate.turns()), (2, (1, 1, 0)));
    Ok(())
}

/// Tells whether these are the workers, the counts and the watch numbers of the lines.
fn are_lines(lines: &[WatchLine], expected: &[(u32, u32, u32)]) -> bool {
    lines.len() == expected.len()
        && lines.iter().zip(expected).all(|(line, row)| (line.worker, line.done, line.refuted)
            == *row)
}

#[test]
fn workers_share_one_table(rt: HostRuntime) -> Result<(), Fail> {
    let gate = OneBeforeZero::new();
    let (lines, _shares) = offer_day(&rt, rt.alloc(), (2, 4), 1, &gate).ok_or("memory")?;
    assert!(rt; !gate.has_failed());
    let expected = [(0, 1, 3), (0, 2, 3), (1, 1, 2), (1, 2, 3)];
    assert!(rt; are_lines(lines.items(), &expected));
    Ok(())
}

/// Tells whether these are traces of the same requests in the same order.
fn have_same_requests(traces: &[NamedTrace], others: &[NamedTrace]) -> bool {
    let mut pairs = traces.iter().zip(others);
    traces.len() == others.len() && pairs.all(|(trace, other)| trace.request == other.request)
}

/// Tells whether two sheets have the same words and traces of the same requests.
fn are_same_sheets(sheet: &DaySheet, other: &DaySheet) -> bool {
    have_same_requests(sheet.traces(), other.traces())
        && sheet.words().words() == other.words().words()
}

/// Tells whether so many workers give this sheet, with a line for each two traces of a worker.
fn give_sheet<R: Threads + Sync>(
    rt: &R,
    alloc: Global,
    workers: u32,
    plain: &DaySheet,
) -> Option<bool>
    requires { 0 < workers }
{
    let (sheet, lines) = record_day(rt, alloc, workers, (3, 8), 2, &PassingGate)?;
    Some(are_same_sheets(&sheet, plain) && lines.items().len() <= 4)
}

/// Makes the plain sheet of eight traces.
fn plain_sheet(alloc: Global) -> Result<DaySheet, AllocError> {
    let traces = day_of(alloc, 3, 8)?;
    DaySheet::plain(alloc, traces, 2)
}

#[test]
fn every_number_of_workers_gives_the_plain_sheet(rt: HostRuntime) -> Result<(), Fail> {
    let plain = plain_sheet(rt.alloc())?;
    assert_eq!(rt; plain.words().words().last().copied(), Some(BOTH));
    for workers in [1, 2, 3, 4, 7, 64] {
        let same = give_sheet(&rt, rt.alloc(), workers, &plain);
        assert_eq!(rt; same, Some(true), "{workers} workers");
    }
    Ok(())
}

/// Tells whether both lists have the same workers and counts, line by line, and, if `alike`, the
/// same watch numbers.
fn are_same_lines(lines: &[WatchLine], others: &[WatchLine], alike: bool) -> bool {
    if lines.len() != others.len() {
        return false;
    }
    for (line, other) in lines.iter().zip(others) {
        if (line.worker, line.done) != (other.worker, other.done) {
            return false;
        }
        if alike && line.refuted != other.refuted {
            return false;
        }
    }
    true
}

/// Tells whether workers that stand beside one another leave this sheet and nine such lines.
fn beside_is_same<R: Threads + Sync>(
    rt: &R,
    alloc: Global,
    workers: u32,
    touch: u32,
    sheet: &DaySheet,
    lines: &[WatchLine],
) -> Option<bool>
    requires { 0 < workers }
{
    let (beside, others) = record_day(rt, alloc, workers, (touch, 9), 1, &PassingGate)?;
    // Where all traces refute the same, each watch number is the same in every schedule.
    let same = are_same_lines(lines, others.items(), touch == 9);
    Some(are_same_sheets(sheet, &beside) && lines.len() == 9 && same)
}

/// Tells whether workers whose gate is open leave the same as those that stand beside one another.
fn open_is_same<R: Threads + Sync>(rt: &R, alloc: Global, workers: u32, touch: u32) -> Option<bool>
    requires { 0 < workers }
{
    let (sheet, lines) = record_day(rt, alloc, workers, (touch, 9), 1, &OpenGate)?;
    beside_is_same(rt, alloc, workers, touch, &sheet, lines.items())
}

#[test]
fn an_open_gate_changes_neither_words_nor_lines(rt: HostRuntime) {
    for workers in [2, 3, 7] {
        for touch in [9, 4] {
            let same = open_is_same(&rt, rt.alloc(), workers, touch);
            assert_eq!(rt; same, Some(true), "{workers} workers, {touch} touching");
        }
    }
}

#[test]
fn workers_with_little_to_do_run_one_after_another(rt: HostRuntime) -> Result<(), Fail> {
    let recorded = record_day(&rt, rt.alloc(), 2, (2, 4), 1, &OpenGate);
    let (_sheet, lines) = recorded.ok_or("memory")?;
    let expected = [(0, 1, 2), (0, 2, 2), (1, 1, 3), (1, 2, 3)];
    assert!(rt; are_lines(lines.items(), &expected));
    Ok(())
}

/// Offers 1,024 traces by two workers through a gate. Gives the number of the sheet's traces and
/// its last word, or nothing where memory ran out.
fn record_much<R: Threads + Sync, G: Gate + Sync>(
    rt: &R,
    alloc: Global,
    gate: &G,
) -> Option<(usize, Option<u64>)> {
    let (sheet, _lines) = record_day(rt, alloc, 2, (512, 1024), 0, gate)?;
    Some((sheet.traces().len(), sheet.words().words().last().copied()))
}

// 1,024 traces of two segments are work of 1,024 * (2 * 2 + 256) = 266,240, which is not below
// 262,144. Workers one after the other would never end: the first would wait for the second.
#[test]
fn workers_with_much_to_do_run_beside_each_other(rt: HostRuntime) {
    let gate = MeetingGate::new();
    let recorded = record_much(&rt, rt.alloc(), &gate);
    assert_eq!(rt; recorded, Some((1024, Some(BOTH))));
}

/// Records at most one trace by four workers. Gives how many traces and words the sheet has, its
/// last word, and the watch lines.
fn record_few<R: Threads + Sync>(
    rt: &R,
    alloc: Global,
    count: u32,
    every: u32,
) -> Option<((usize, usize, Option<u64>), WatchLines)> {
    let (sheet, lines) = record_day(rt, alloc, 4, (1, count), every, &PassingGate)?;
    let words = sheet.words().words();
    let told = (sheet.traces().len(), words.len(), words.last().copied());
    Some((told, WatchLines::of(lines.into_items())))
}

#[test]
fn few_traces_or_none_leave_workers_idle(rt: HostRuntime) -> Result<(), Fail> {
    // Worker 3 of 4 takes the touching trace.
    let line: &[(u32, u32, u32)] = &[(3, 1, 2)];
    let none: &[(u32, u32, u32)] = &[];
    for (count, every, left, due) in [
        (1, 1, TOUCHED, line),
        (1, 0, TOUCHED, none),
        (0, 1, u64::MAX, none),
    ] {
        let (told, lines) = record_few(&rt, rt.alloc(), count, every).ok_or("memory")?;
        assert_eq!(rt; told, (count as usize, 127, Some(left)));
        assert!(rt; are_lines(lines.items(), due));
    }
    Ok(())
}
