//! Reports on latencies.
use crate::books::book_of_latencies;
use latency_report::{SegmentRow, SegmentRowList, report};
use std::alloc::Global;
use std::test::Fail;
use std::thread::Threads;
use trace_rules::Figures;
use worker_limit::WorkerLimit;

/// Latencies, their sum, their median and the greatest.
const LATENCIES: [(&[u32], u128, u64, u64); 6] = [
    (&[], 0, 0, 0),
    (&[7], 7, 7, 7),
    (&[9, 4], 13, 4, 9),
    (&[5, 1, 3], 9, 3, 5),
    (&[8, 2, 6, 4], 20, 4, 8),
    (&[3, 3, 3, 1, 9, 9], 28, 3, 9),
];

/// Reports on traces with these latencies, and gives the figures of their latencies.
fn figures_of<R: Threads + Sync>(rt: &R, alloc: Global, latencies: &[u32]) -> Option<Figures> {
    let book = book_of_latencies(alloc, latencies)?;
    let workers = WorkerLimit {
        runtime: rt,
        most: 2,
    };
    let found = report(&workers, alloc, &book, book.words()).ok()?;
    Some(found.latency)
}

#[test]
fn the_lower_of_two_in_the_middle_is_the_median(rt: HostRuntime) -> Result<(), Fail> {
    for (latencies, sum, median, greatest) in LATENCIES {
        let expected = Figures {
            count: latencies.len() as u32,
            sum,
            median,
            greatest,
        };
        assert!(rt; figures_of(&rt, rt.alloc(), latencies) == Some(expected));
    }
    Ok(())
}

#[test]
fn a_list_of_segment_rows_gives_them_back(rt: HostRuntime) -> Result<(), Fail> {
    let row = SegmentRow {
        name: 3,
        figures: Figures {
            count: 1,
            sum: 5,
            median: 5,
            greatest: 5,
        },
        on_path: 1,
        on_path_sum: 5,
    };
    let list = SegmentRowList::of(Vec::from_array(rt.alloc(), [row])?);
    assert!(rt; list.items() == [row].as_slice());
    assert!(rt; list.into_items().as_slice() == [row].as_slice());
    Ok(())
}
