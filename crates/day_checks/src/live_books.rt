//! A shared book that callers use in turns, in one thread.
ghost use Rattle.std.specs.Prelude.{◌≡◌};
ghost use Rattle.live_book.specs.Callers.{IsOfBook};

use crate::answers::{answers, days_refusal, full_entries, journal_refusal};
use crate::callers::{ask_full, ask_last, drop_day, keep, read, read_two, roll};
use crate::entries::row_of;
use crate::traces::{SWAPPED, TOUCHED};
use live_book::{Caller, Entry, LiveBook};
use std::alloc::{AllocError, Global};
use std::process::Abort;
use std::sync::Wait;
use std::test::Fail;

/// Reads the journal from a position on, and tells how many entries there are.
fn count_from<R: Wait>(rt: &R, book: &LiveBook, caller: &mut Caller, from: u32) -> Option<usize>
    requires of { IsOfBook book.now caller.old }
    ensures of { IsOfBook book.now caller.new }
{
    let entries = read(rt, book, caller, from)?;
    Some(entries.len())
}

/// The name, the start and the end of each segment of an entry's first trace.
fn segments_of(alloc: Global, entry: &Entry) -> Result<Vec<(u32, i64, i64)>, AllocError> {
    let mut rows = Vec::new(alloc);
    let Entry::Rolled { traces, .. } = entry else {
        return Ok(rows);
    };
    let Some(trace) = traces.items().first() else {
        return Ok(rows);
    };
    for segment in trace.segments.items() {
        rows.push((segment.name, segment.start, segment.end))?;
    }
    Ok(rows)
}

/// Rolls a sheet of each of 64 days. Answers whether each was rolled and stands at its position.
fn roll_days<R: Wait>(rt: &R, alloc: Global, book: &LiveBook, caller: &mut Caller) -> bool
    requires names { book.now.names ≡ 2 }
    requires of { IsOfBook book.now caller.old }
    ensures of { IsOfBook book.now caller.new }
{
    'days: for day in 0..64u32 {
        if !answers(roll(rt, alloc, book, caller, day, true), day) {
            return false;
        }
    }
    true
}

/// Keeps the newest 64 days 9,999 times. Answers whether no trace was dropped.
fn keep_often<R: Wait>(rt: &R, book: &LiveBook, caller: &mut Caller) -> bool
    requires of { IsOfBook book.now caller.old }
    ensures of { IsOfBook book.now caller.new }
{
    'keeps: for _ in 0..9_999u32 {
        if !answers(keep(rt, book, caller, 64), 0) {
            return false;
        }
    }
    true
}

/// Tells whether the first trace of an entry is a touching one, segment for segment.
fn has_touching_segments(alloc: Global, entry: &Entry) -> bool {
    let Ok(segments) = segments_of(alloc, entry) else {
        return false;
    };
    segments.len() == 2 && segments[0] == (0, 0, 10) && segments[1] == (1, 10, 30)
}

/// Tells whether entries are a rolled touching trace of day 0 and a drop of this day.
fn are_rolled_and_dropped(alloc: Global, entries: &[Entry]) -> bool {
    let [rolled, dropped] = entries else {
        return false;
    };
    has_touching_segments(alloc, rolled)
        && row_of(rolled) == ('r', 0, 1)
        && row_of(dropped) == ('d', 0, 0)
}

/// Reads the journal, and tells whether it is a rolled touching trace of day 0 and a drop of this
/// day.
fn has_rolled_and_dropped<R: Wait>(
    rt: &R,
    alloc: Global,
    book: &LiveBook,
    caller: &mut Caller,
) -> bool
    requires of { IsOfBook book.now caller.old }
    ensures of { IsOfBook book.now caller.new }
{
    match read(rt, book, caller, 0) {
        Some(entries) => are_rolled_and_dropped(alloc, &entries),
        None => false,
    }
}

/// Asserts that another caller drops the day that the first one rolled.
fn expect_dropped<R: Wait + Abort>(
    rt: &R,
    alloc: Global,
    book: &LiveBook,
    first: &mut Caller,
    second: &mut Caller,
)
    requires names { book.now.names ≡ 2 }
    requires first { IsOfBook book.now first.old }
    requires second { IsOfBook book.now second.old }
    ensures first { IsOfBook book.now first.new }
    ensures second { IsOfBook book.now second.new }
{
    assert_eq!(rt; (first.turns(), second.turns()), (14, 5));
    assert!(rt; answers(drop_day(rt, book, second, 0), 1));
    assert_eq!(rt; ask_full(rt, alloc, book, first), Some(127));
}

/// Rolls a day, splits the caller, asserts that the other one drops the day, and joins both.
fn roll_and_drop<R: Wait + Abort>(rt: &R, alloc: Global, book: &LiveBook, first: &mut Caller)
    requires names { book.now.names ≡ 2 }
    requires of { IsOfBook book.now first.old }
    ensures of { IsOfBook book.now first.new }
{
    assert!(rt; answers(roll(rt, alloc, book, first, 0, true), 0));
    assert!(rt; first.turns() >= 5);
    let mut second = book.split(first, 5);
    expect_dropped(rt, alloc, book, first, &mut second);
    book.join(first, second);
}

#[test]
fn a_rolled_day_is_dropped_by_another_caller(rt: HostRuntime) -> Result<(), Fail> {
    let (book, mut first) = LiveBook::open(rt.alloc(), 2, 20)?;
    roll_and_drop(&rt, rt.alloc(), &book, &mut first);
    assert!(rt; has_rolled_and_dropped(&rt, rt.alloc(), &book, &mut first));
    assert_eq!(rt; first.turns(), 16);
    Ok(())
}

/// Asserts that of two days the newest is kept.
fn expect_newest<R: Wait + Abort>(rt: &R, alloc: Global, book: &LiveBook, caller: &mut Caller)
    requires names { book.now.names ≡ 2 }
    requires of { IsOfBook book.now caller.old }
{
    assert!(rt; answers(roll(rt, alloc, book, caller, 3, true), 0));
    assert!(rt; answers(roll(rt, alloc, book, caller, 5, false), 1));
    assert!(rt; answers(keep(rt, book, caller, 1), 1));
    assert_eq!(rt; ask_last(rt, alloc, book, caller), Some(SWAPPED));
    let rows = read_two(rt, book, caller, 1);
    assert_eq!(rt; rows, Some((('r', 5, 1), ('k', 1, 0))));
    assert_eq!(rt; caller.turns(), 0);
}

#[test]
fn only_the_newest_day_is_kept(rt: HostRuntime) -> Result<(), Fail> {
    let (book, mut caller) = LiveBook::open(rt.alloc(), 2, 5)?;
    expect_newest(&rt, rt.alloc(), &book, &mut caller);
    Ok(())
}

/// Asserts that a 65th day is refused, and a day that is there is not.
fn expect_64_days<R: Wait + Abort>(rt: &R, alloc: Global, book: &LiveBook, caller: &mut Caller)
    requires names { book.now.names ≡ 2 }
    requires of { IsOfBook book.now caller.old }
{
    assert!(rt; roll_days(rt, alloc, book, caller));
    let refused = days_refusal(roll(rt, alloc, book, caller, 64, true));
    assert_eq!(rt; refused, Some((65, 1)));
    assert!(rt; answers(roll(rt, alloc, book, caller, 3, false), 64));
    assert_eq!(rt; caller.turns(), 34);
}

#[test]
fn a_65th_day_is_told_and_its_sheet_comes_back(rt: HostRuntime) -> Result<(), Fail> {
    let (book, mut caller) = LiveBook::open(rt.alloc(), 2, 100)?;
    expect_64_days(&rt, rt.alloc(), &book, &mut caller);
    Ok(())
}

/// Fills a journal, and asserts that it refuses each call.
fn expect_full<R: Wait + Abort>(rt: &R, alloc: Global, book: &LiveBook, caller: &mut Caller)
    requires names { book.now.names ≡ 2 }
    requires of { IsOfBook book.now caller.old }
    ensures of { IsOfBook book.now caller.new }
{
    assert!(rt; answers(roll(rt, alloc, book, caller, 7, true), 0));
    assert!(rt; keep_often(rt, book, caller));
    let dropped = full_entries(drop_day(rt, book, caller, 7));
    let kept = full_entries(keep(rt, book, caller, 0));
    assert_eq!(rt; (dropped, kept), (Some(10_000), Some(10_000)));
    let refused = journal_refusal(roll(rt, alloc, book, caller, 8, true));
    assert_eq!(rt; refused, Some((10_000, 1)));
}

#[test]
fn an_entry_past_the_last_is_told(rt: HostRuntime) -> Result<(), Fail> {
    let (book, mut caller) = LiveBook::open(rt.alloc(), 2, 10_010)?;
    expect_full(&rt, rt.alloc(), &book, &mut caller);
    assert_eq!(rt; count_from(&rt, &book, &mut caller, 9_999), Some(1));
    assert_eq!(rt; count_from(&rt, &book, &mut caller, 10_001), Some(0));
    assert_eq!(rt;
        ask_last(&rt, rt.alloc(), &book, &mut caller),
        Some(TOUCHED)
    );
    Ok(())
}
