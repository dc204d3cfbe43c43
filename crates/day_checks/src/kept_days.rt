//! Days that are added, widened, dropped and refused, and the greatest book.
ghost use Rattle.std.specs.Prelude.{◌≡◌, IfOk};

use crate::day_books::{
    add_both, add_quiet, add_quiet_days, add_sheet, drop_one, has_days, has_plain_words, list_days,
};
use crate::traces::{FULL, TOUCHED, busy, day_sheet, quiet, sheet_of};
use day_partitions::DayBook;
use std::alloc::{AllocError, Global};
use std::process::Abort;
use std::test::Fail;

/// Adds a sheet of a quiet trace to its day.
fn add_quiet_sheet(
    rt: &impl Abort,
    alloc: Global,
    book: &mut DayBook,
    day: u32,
) -> Result<(), AllocError>
    requires { book.old.names ≡ 2 }
    ensures { book.new.names ≡ 2 }
{
    let trace = quiet(alloc, day)?;
    let sheet = sheet_of(alloc, trace, 2)?;
    add_sheet(rt, book, day, sheet);
    Ok(())
}

#[test]
fn a_reserved_row_is_taken_given_back_and_taken_again(rt: HostRuntime) -> Result<(), Fail> {
    let mut book = DayBook::new(rt.alloc(), 2)?;
    book.reserve(1)?;
    assert_eq!(rt; book.spare(), 1);
    add_quiet_sheet(&rt, rt.alloc(), &mut book, 3)?;
    assert_eq!(rt; book.spare(), 0);
    assert_eq!(rt; (drop_one(&mut book, 4), drop_one(&mut book, 3)), (0, 1));
    assert_eq!(rt; book.spare(), 1);
    add_quiet_sheet(&rt, rt.alloc(), &mut book, 5)?;
    assert_eq!(rt; (book.spare(), book.days()), (0, 1));
    assert_eq!(rt; (book.day(0), book.traces(0).len()), (5, 1));
    Ok(())
}

/// Makes a book with a touching trace on day 0 and a quiet one on day 9.
fn two_days(rt: &impl Abort, alloc: Global) -> Result<DayBook, AllocError>
    ensures { IfOk result (λ b. b.names ≡ 2) }
{
    let mut book = DayBook::new(alloc, 2)?;
    let sheet = day_sheet(alloc, 0, true)?;
    add_sheet(rt, &mut book, 0, sheet);
    add_quiet_sheet(rt, alloc, &mut book, 9)?;
    Ok(book)
}

/// Gives the words of a book after those of tasks.
fn last_words(book: &DayBook) -> [Option<u64>; 2] {
    let words = book.words();
    [words.get(126).copied(), words.get(127).copied()]
}

#[test]
fn widen_adds_full_words_and_a_drop_brings_relations_back(rt: HostRuntime) -> Result<(), Fail> {
    let mut book = two_days(&rt, rt.alloc())?;
    assert_eq!(rt; book.words().len(), 127);
    book.widen(7)?;
    assert_eq!(rt; (book.names(), book.trace_count()), (7, 2));
    assert_eq!(rt; book.words().len(), 128);
    assert_eq!(rt; last_words(&book), [Some(TOUCHED), Some(FULL)]);
    assert_eq!(rt; drop_one(&mut book, 0), 1);
    assert_eq!(rt; last_words(&book), [Some(FULL), Some(FULL)]);
    assert_eq!(rt; (book.keep_newest(1), book.keep_newest(0)), (0, 1));
    assert_eq!(rt; book.days(), 0);
    Ok(())
}

/// Tells whether two days more are refused, and leave the days and the words as they were.
fn two_days_change_nothing(alloc: Global, book: &mut DayBook) -> Result<bool, AllocError>
    requires names { book.old.names ≡ 6 }
    ensures names { book.new.names ≡ 6 }
{
    let before = list_days(alloc, book)?;
    let refused = add_both(alloc, book, 70, 71)?;
    Ok(refused == Some((65, 2)) && has_days(alloc, book, &before)?)
}

/// Asserts that two days more are refused of a book of 63 days, and taken once one is dropped.
fn expect_two_days(rt: &impl Abort, alloc: Global, book: &mut DayBook) -> Result<(), AllocError>
    requires { book.old.names ≡ 6 }
    ensures { book.new.names ≡ 6 }
{
    assert!(rt; two_days_change_nothing(alloc, book)?);
    assert_eq!(rt; book.days(), 63);
    assert!(rt; has_plain_words(alloc, book, &[], 6)?);
    assert_eq!(rt; drop_one(book, 0), 1);
    assert_eq!(rt; add_both(alloc, book, 70, 71)?, None);
    assert_eq!(rt; book.days(), 64);
    assert!(rt; has_plain_words(alloc, book, &[(70, 1), (71, 1)], 6)?);
    Ok(())
}

#[test]
fn a_65th_day_is_told_and_no_day_is_added(rt: HostRuntime) -> Result<(), Fail> {
    let mut book = DayBook::new(rt.alloc(), 6)?;
    assert!(rt; add_quiet_days(rt.alloc(), &mut book, 63)?);
    expect_two_days(&rt, rt.alloc(), &mut book)?;
    assert_eq!(rt; add_quiet(rt.alloc(), &mut book, 80)?, Some((65, 1)));
    Ok(())
}

/// Adds the sheet of a busy trace to each of 64 days of a book of 512 names.
fn fill_book(rt: &impl Abort, alloc: Global, book: &mut DayBook) -> Result<(), AllocError>
    requires names { book.old.names ≡ 512 }
{
    'days: for day in 0..64u32 {
        let trace = busy(alloc, day, 512)?;
        add_sheet(rt, book, day, sheet_of(alloc, trace, 512)?);
    }
    Ok(())
}

/// Tells whether the words of a book of 512 names are those of a busy trace on each of eight days:
/// as many days later the traces have the same names again.
fn has_words_of_eight_days(alloc: Global, book: &DayBook) -> Result<bool, AllocError> {
    let days = [0u32, 1, 2, 3, 4, 5, 6, 7].map(|day| (day, 1u64));
    has_plain_words(alloc, book, &days, 512)
}

#[test]
fn the_greatest_book_has_512_names_on_64_days(rt: HostRuntime) -> Result<(), Fail> {
    let mut book = DayBook::new(rt.alloc(), 512)?;
    fill_book(&rt, rt.alloc(), &mut book)?;
    assert_eq!(rt; (book.days(), book.words().len()), (64, 8302));
    assert!(rt; has_words_of_eight_days(rt.alloc(), &book)?);
    Ok(())
}
