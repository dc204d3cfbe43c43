//! Rows of what traces refute between their tasks, whole rows, and sheets of days.
use crate::shared_traces::shared_trace;
use crate::traces::{TOUCHED, touching};
use pipeline_tests::laws::full_words_survive;
use pipeline_tests::{DaySheet, task_row, whole_row};
use std::alloc::{AllocError, Global};
use std::process::Abort;
use std::rt::HostRuntime;
use std::test::Fail;
use word_rows::{Row, Sheet};

/// Makes the sheet of a touching trace.
fn plain_day(alloc: Global) -> Result<DaySheet, AllocError> {
    let trace = touching(alloc, 1)?;
    let traces = Vec::from_array(alloc, [trace])?;
    DaySheet::plain(alloc, traces, 2)
}

/// Makes the sheet of no trace.
fn empty_day(alloc: Global) -> Result<DaySheet, AllocError> {
    full_words_survive();
    let traces = Vec::new(alloc);
    let words = Sheet::full(alloc, 126)?;
    Ok(DaySheet::of_words(traces, words))
}

/// Gives the only entry of a row.
pub(crate) fn only(rt: &impl Abort, row: &Row) -> (u32, u64) {
    assert!(rt; row.entries().len() == 1);
    let entry = row.entries()[0];
    (entry.word, entry.mask)
}

#[test]
fn rows_of_two_tasks(rt: HostRuntime) -> Result<(), Fail> {
    let alloc = rt.alloc();
    let rows = [
        (shared_trace(alloc, (0, 1), (20, 30, 40), 0)?, 6),
        (shared_trace(alloc, (1, 0), (30, 40, 50), 0)?, 7),
        (shared_trace(alloc, (0, 1), (5, 15, 25), 0)?, 7),
        (shared_trace(alloc, (0, 1), (5, 15, 25), 4)?, 7),
        (shared_trace(alloc, (0, 1), (5, 15, 25), 5)?, 6),
    ];
    for (trace, mask) in &rows {
        let row = task_row(alloc, trace)?;
        assert!(rt; only(&rt, &row) == (0, *mask));
    }
    Ok(())
}

#[test]
fn rows_without_elements(rt: HostRuntime) -> Result<(), Fail> {
    let trace = touching(rt.alloc(), 1)?;
    let tasks = task_row(rt.alloc(), &trace)?;
    assert!(rt; only(&rt, &tasks) == (0, 0));
    let whole = whole_row(rt.alloc(), &trace)?;
    assert!(rt; only(&rt, &whole) == (126, 10));
    Ok(())
}

#[test]
fn sheet_of_one_trace(rt: HostRuntime) -> Result<(), Fail> {
    let day = plain_day(rt.alloc())?;
    let words = day.words().words();
    assert!(rt; words.len() == 127);
    assert!(rt; words.iter().take(126).all(|word| *word == u64::MAX));
    assert!(rt; words[126] == TOUCHED);
    assert!(rt; day.traces().len() == 1);
    assert!(rt; day.into_traces().len() == 1);
    Ok(())
}

#[test]
fn sheet_of_words(rt: HostRuntime) -> Result<(), Fail> {
    let day = empty_day(rt.alloc())?;
    assert!(rt; day.traces().is_empty());
    assert!(rt; day.words().words().len() == 126);
    Ok(())
}
