//! Reports on the slowest traces.
use crate::books::{book_of_latencies, book_of_tasks};
use kept_books::KeptBook;
use slow_tail::{SlowReport, TailRow, TailRowList, tail};
use std::alloc::Global;
use std::test::Fail;
use std::thread::Threads;
use worker_limit::WorkerLimit;

/// Reports on the slowest traces of a book by two workers.
fn tail_by_two<R: Threads + Sync>(rt: &R, alloc: Global, book: &KeptBook) -> Option<SlowReport> {
    let workers = WorkerLimit {
        runtime: rt,
        most: 2,
    };
    tail(&workers, alloc, book, book.words()).ok()
}

/// Latencies, the places of those that are slow, and the least of these latencies.
const LATENCIES: [(&[u32], &[u32], u64); 8] = [
    (&[], &[], 0),
    (&[7], &[0], 7),
    (&[9, 9, 3], &[1], 9),
    (&[3, 9, 9], &[2], 9),
    (&[4, 2], &[0], 4),
    (&[5; 20], &[19], 5),
    (&[5; 21], &[19, 20], 5),
    (
        &[
            21, 20, 19, 18, 17, 16, 15, 14, 13, 12, 11, 10, 9, 8, 7, 6, 5, 4, 3, 2, 1,
        ],
        &[0, 1],
        20,
    ),
];

/// Reports on the slowest of traces with these latencies.
fn tail_of<R: Threads + Sync>(rt: &R, alloc: Global, latencies: &[u32]) -> Option<SlowReport> {
    let book = book_of_latencies(alloc, latencies)?;
    tail_by_two(rt, alloc, &book)
}

/// Tells whether each row is that of a slow trace exactly where its place is one of these.
fn tell_slow(rows: &[TailRow], slow: &[u32]) -> bool {
    rows.iter().all(|row| {
        let is_slow = slow.contains(&row.name);
        row.slow_on == u32::from(is_slow) && row.rest_on == u32::from(!is_slow)
    })
}

#[test]
fn of_equal_latencies_the_last_listed_are_slow(rt: HostRuntime) -> Result<(), Fail> {
    for (latencies, slow, floor) in LATENCIES {
        let report = tail_of(&rt, rt.alloc(), latencies).ok_or("report")?;
        let rows = report.rows.items();
        assert_eq!(rt; rows.len(), latencies.len());
        assert!(rt; report.slow as usize == slow.len() && report.floor == floor);
        assert!(rt; tell_slow(rows, slow));
    }
    Ok(())
}

#[test]
fn a_list_of_tail_rows_gives_them_back(rt: HostRuntime) -> Result<(), Fail> {
    let row = TailRow {
        name: 3,
        slow_on: 1,
        slow_sum: 5,
        rest_on: 2,
        rest_sum: 7,
    };
    let list = TailRowList::of(Vec::from_array(rt.alloc(), [row])?);
    assert!(rt; list.items() == [row].as_slice());
    assert!(rt; list.into_items().as_slice() == [row].as_slice());
    Ok(())
}

const ROWS: [TailRow; 2] = [
    TailRow {
        name: 2,
        slow_on: 1,
        slow_sum: 4,
        rest_on: 1,
        rest_sum: 2,
    },
    TailRow {
        name: 1,
        slow_on: 0,
        slow_sum: 0,
        rest_on: 1,
        rest_sum: 4,
    },
];

#[test]
fn the_slowest_are_told_from_the_rest(rt: HostRuntime) -> Result<(), Fail> {
    let book = book_of_tasks(rt.alloc(), &[("b", 4), ("a", 4), ("a", 2)]).ok_or("book")?;
    let report = tail_by_two(&rt, rt.alloc(), &book).ok_or("report")?;
    assert!(rt; report.traces == 3 && report.slow == 1 && report.floor == 4);
    assert!(rt; report.rows.items() == ROWS.as_slice());
    Ok(())
}

#[test]
fn no_traces_have_a_report_of_zeros(rt: HostRuntime) -> Result<(), Fail> {
    let report = tail_of(&rt, rt.alloc(), &[]).ok_or("report")?;
    assert!(rt; report.traces == 0 && report.slow == 0 && report.floor == 0);
    assert!(rt; report.rows.items().is_empty());
    Ok(())
}
