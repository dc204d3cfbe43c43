//! A book of days with its journal.
ghost use Rattle.std.specs.Prelude.{◌≡◌};

use crate::answers::{answers, days_refusal, full_entries, journal_refusal};
use crate::entries::{Row, row_of};
use crate::traces::{FULL, TOUCHED, day_sheet};
use live_journal::{Entry, JournaledBook, RollFault};
use std::alloc::{AllocError, Global};
use std::process::Abort;
use std::test::Fail;

/// Rolls a sheet of one trace. Gives nothing where memory ran out for it.
fn roll(alloc: Global, book: &mut JournaledBook, day: u32) -> Option<Result<u32, RollFault>>
    requires { book.old.names ≡ 2 }
    ensures { book.new.names ≡ 2 }
{
    let sheet = day_sheet(alloc, day, true).ok()?;
    Some(book.roll(day, sheet))
}

/// Rolls a sheet of each of 64 days. Answers whether each stands at its position.
fn roll_days(alloc: Global, book: &mut JournaledBook) -> bool
    requires { book.old.names ≡ 2 }
    ensures { book.new.names ≡ 2 }
{
    'days: for day in 0..64u32 {
        if !answers(roll(alloc, book, day), day) {
            return false;
        }
    }
    true
}

/// Keeps the newest 64 days so often. Answers whether no trace was dropped.
fn keep_often(book: &mut JournaledBook, times: u32) -> bool
    requires { book.old.names ≡ 2 }
    ensures { book.new.names ≡ 2 }
{
    'keeps: for _ in 0..times {
        if !answers(Some(book.keep_newest(64)), 0) {
            return false;
        }
    }
    true
}

/// Tells whether all relations survive.
fn is_full(book: &JournaledBook) -> bool {
    book.words().iter().all(|word| *word == FULL)
}

/// Tells whether entries are these rows.
fn are_rows(entries: &[Entry], rows: &[Row]) -> bool {
    entries.len() == rows.len()
        && entries
            .iter()
            .zip(rows)
            .all(|(entry, row)| row_of(entry) == *row)
}

/// Tells whether the entries from a position on are these rows.
fn has_rows(book: &JournaledBook, from: u32, rows: &[Row]) -> bool {
    match book.copy_from(from) {
        Ok(entries) => are_rows(&entries, rows),
        Err(_) => false,
    }
}

/// Asserts that a day with two traces is dropped.
fn expect_dropped(rt: &impl Abort, alloc: Global, book: &mut JournaledBook)
    requires { book.old.names ≡ 2 }
{
    assert!(rt; answers(roll(alloc, book, 4), 0));
    assert!(rt; answers(roll(alloc, book, 4), 1));
    assert_eq!(rt; book.words().get(126).copied(), Some(TOUCHED));
    assert!(rt; answers(Some(book.drop_day(3)), 0));
    assert!(rt; answers(Some(book.drop_day(4)), 2));
}

#[test]
fn a_rolled_day_is_dropped_and_both_stand_in_the_journal(rt: HostRuntime) -> Result<(), Fail> {
    let mut book = JournaledBook::new(rt.alloc(), 2)?;
    assert_eq!(rt; (book.count(), book.words().len()), (0, 127));
    assert!(rt; is_full(&book));
    expect_dropped(&rt, rt.alloc(), &mut book);
    assert!(rt; is_full(&book));
    assert_eq!(rt; book.count(), 4);
    assert!(rt; has_rows(&book, 1, &[('r', 4, 1), ('d', 3, 0), ('d', 4, 0)]));
    assert!(rt; has_rows(&book, 4, &[]) && has_rows(&book, 9, &[]));
    Ok(())
}

/// Asserts that of three days the newest two are kept, and then none.
fn expect_kept(rt: &impl Abort, alloc: Global, book: &mut JournaledBook)
    requires { book.old.names ≡ 2 }
{
    assert!(rt; answers(roll(alloc, book, 7), 0));
    assert!(rt; answers(roll(alloc, book, 2), 1));
    assert!(rt; answers(roll(alloc, book, 9), 2));
    assert!(rt; answers(Some(book.keep_newest(3)), 0));
    assert!(rt; answers(Some(book.keep_newest(2)), 1));
    assert!(rt; answers(Some(book.drop_day(2)), 0));
    assert!(rt; answers(Some(book.keep_newest(0)), 2));
}

#[test]
fn the_newest_days_are_kept(rt: HostRuntime) -> Result<(), Fail> {
    let mut book = JournaledBook::new(rt.alloc(), 2)?;
    expect_kept(&rt, rt.alloc(), &mut book);
    assert!(rt; is_full(&book));
    let rows = [('k', 3, 0), ('k', 2, 0), ('d', 2, 0), ('k', 0, 0)];
    assert!(rt; has_rows(&book, 3, &rows));
    Ok(())
}

/// Tells whether an entry is a touching trace that was rolled into this day.
fn is_touching_on(entry: &Entry, on: u32) -> bool {
    let Entry::Rolled { day, traces } = entry else {
        return false;
    };
    let Some(trace) = traces.items().first() else {
        return false;
    };
    let [first, second] = trace.segments.items() else {
        return false;
    };
    (*day, trace.day, trace.latency) == (on, on, 30)
        && (first.name, first.start, first.end) == (0, 0, 10)
        && (second.name, second.start, second.end) == (1, 10, 30)
}

/// Tells whether the copy of an entry is a touching trace that was rolled into this day.
fn copy_is_touching(alloc: Global, entry: &Entry, day: u32) -> Result<bool, AllocError> {
    let copy = entry.copy(alloc)?;
    Ok(is_touching_on(&copy, day))
}

/// The same of the copy of the first entry of a book.
fn first_is_touching(alloc: Global, book: &JournaledBook, day: u32) -> Result<bool, AllocError> {
    let entries = book.copy_from(0)?;
    match entries.first() {
        Some(entry) => copy_is_touching(alloc, entry, day),
        None => Ok(false),
    }
}

#[test]
fn a_copied_entry_has_its_trace(rt: HostRuntime) -> Result<(), Fail> {
    let mut book = JournaledBook::new(rt.alloc(), 2)?;
    assert!(rt; answers(roll(rt.alloc(), &mut book, 5), 0));
    assert!(rt; first_is_touching(rt.alloc(), &book, 5)?);
    Ok(())
}

#[test]
fn a_65th_day_is_told_and_its_sheet_comes_back(rt: HostRuntime) -> Result<(), Fail> {
    let mut book = JournaledBook::new(rt.alloc(), 2)?;
    assert!(rt; roll_days(rt.alloc(), &mut book));
    let refused = days_refusal(roll(rt.alloc(), &mut book, 64));
    assert_eq!(rt; (refused, book.count()), (Some((65, 1)), 64));
    assert!(rt; answers(roll(rt.alloc(), &mut book, 63), 64));
    Ok(())
}

/// Asserts that a full journal refuses each call.
fn expect_full(rt: &impl Abort, alloc: Global, book: &mut JournaledBook)
    requires { book.old.names ≡ 2 }
{
    let refused = journal_refusal(roll(alloc, book, 64));
    assert_eq!(rt; refused, Some((10_000, 1)));
    assert_eq!(rt; full_entries(Some(book.drop_day(0))), Some(10_000));
    assert_eq!(rt; full_entries(Some(book.keep_newest(1))), Some(10_000));
}

#[test]
fn a_full_journal_is_told_before_a_65th_day(rt: HostRuntime) -> Result<(), Fail> {
    let mut book = JournaledBook::new(rt.alloc(), 2)?;
    assert!(rt; roll_days(rt.alloc(), &mut book));
    assert!(rt; keep_often(&mut book, 9_936));
    assert_eq!(rt; book.count(), 10_000);
    expect_full(&rt, rt.alloc(), &mut book);
    assert_eq!(rt; book.count(), 10_000);
    assert!(rt; has_rows(&book, 9_998, &[('k', 64, 0), ('k', 64, 0)]));
    assert_eq!(rt; book.words().get(126).copied(), Some(TOUCHED));
    Ok(())
}
