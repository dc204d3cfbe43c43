//! Calls of a book of days that tests share, and its words beside a plain sheet.
ghost use Rattle.std.specs.Prelude.{◌≡◌, ◌<◌, ◌≤◌, length, IfOk};
ghost use Rattle.day_partitions.specs.Books.{IsSheetOf};

use crate::traces::{busy, quiet, sheet_of};
use day_partitions::{AddAllFault, BookFault, DatedSheet, DayBook};
use pipeline_tests::DaySheet;
use std::alloc::{AllocError, Global};
use std::process::Abort;

/// Adds a sheet of one trace to its day.
pub(crate) fn add_sheet(rt: &impl Abort, book: &mut DayBook, day: u32, sheet: DaySheet)
    requires sheet { IsSheetOf book.old.names day sheet }
    requires one { length sheet.traces ≡ 1 }
    ensures names { book.new.names ≡ book.old.names }
{
    assert!(rt; book.trace_count() < 1000);
    let Ok(()) = book.add(day, sheet) else {
        panic!(rt; "not added");
    };
}

/// Drops a day and tells how many traces it had.
pub(crate) fn drop_one(book: &mut DayBook, day: u32) -> u32
    ensures names { book.new.names ≡ book.old.names }
{
    book.drop_day(day)
}

/// Keeps so many of the newest days.
pub(crate) fn keep(book: &mut DayBook, days: u32)
    ensures names { book.new.names ≡ book.old.names }
{
    let _ = book.keep_newest(days);
}

/// Widens a book to so many names.
pub(crate) fn widen(book: &mut DayBook, names: u32) -> Result<(), AllocError>
    requires more { book.old.names ≤ names }
    requires most { names ≤ 512 }
    ensures names { IfOk result (λ u. book.new.names ≡ names) }
{
    book.widen(names)
}

/// Makes the sheet of a busy trace for a day of a book of six names.
fn dated(alloc: Global, day: u32) -> Result<DatedSheet, AllocError>
    ensures day { IfOk result (λ d. d.day ≡ day) }
    ensures sheet { IfOk result (λ d. IsSheetOf 6 day d.sheet) }
    ensures one { IfOk result (λ d. length d.sheet.traces ≡ 1) }
{
    let trace = busy(alloc, day, 6)?;
    let sheet = sheet_of(alloc, trace, 6)?;
    Ok(DatedSheet { day, sheet })
}

/// Adds the sheets of a trace on each of two days that rise. Where they are too many, it answers
/// how many days there would be and how many sheets came back.
pub(crate) fn add_both(
    alloc: Global,
    book: &mut DayBook,
    first: u32,
    second: u32,
) -> Result<Option<(u32, usize)>, AllocError>
    requires rising { first < second }
    requires names { book.old.names ≡ 6 }
    ensures names { book.new.names ≡ 6 }
{
    if book.trace_count() >= 1000 {
        return Err(AllocError);
    }
    let low = dated(alloc, first)?;
    let high = dated(alloc, second)?;
    let sheets = Vec::from_array(alloc, [low, high])?;
    match book.add_all(sheets) {
        Ok(()) => Ok(None),
        Err(AddAllFault::TooManyDays { sheets, days }) => Ok(Some((days, sheets.len()))),
        Err(AddAllFault::Memory { .. }) => Err(AllocError),
    }
}

/// Adds a sheet of a quiet trace. Where its day is one too many, it answers how many days there
/// would be and how many traces came back.
pub(crate) fn add_quiet(
    alloc: Global,
    book: &mut DayBook,
    day: u32,
) -> Result<Option<(u32, usize)>, AllocError>
    requires names { book.old.names ≡ 6 }
    ensures names { book.new.names ≡ 6 }
{
    if book.trace_count() >= 1000 {
        return Err(AllocError);
    }
    let trace = quiet(alloc, day)?;
    let sheet = sheet_of(alloc, trace, 6)?;
    match book.add(day, sheet) {
        Ok(()) => Ok(None),
        Err(BookFault::TooManyDays { sheet, days }) => Ok(Some((days, sheet.traces().len()))),
        Err(BookFault::Memory { .. }) => Err(AllocError),
    }
}

/// Adds a sheet of a quiet trace to each of so many days, from 0 on. Tells whether all were added.
pub(crate) fn add_quiet_days(
    alloc: Global,
    book: &mut DayBook,
    count: u32,
) -> Result<bool, AllocError>
    requires names { book.old.names ≡ 6 }
    ensures names { book.new.names ≡ 6 }
{
    'days: for day in 0..count {
        if add_quiet(alloc, book, day)?.is_some() {
            return Ok(false);
        }
    }
    Ok(true)
}

/// Lists the days of a book, each with the number of its traces.
pub(crate) fn list_days(alloc: Global, book: &DayBook) -> Result<Vec<(u32, u64)>, AllocError> {
    let mut days = Vec::new(alloc);
    for place in 0..book.days() {
        days.push((book.day(place), book.traces(place).len() as u64))?;
    }
    Ok(days)
}

/// Tells whether the days of a book are these, each with so many traces.
pub(crate) fn has_days(
    alloc: Global,
    book: &DayBook,
    days: &[(u32, u64)],
) -> Result<bool, AllocError> {
    let found = list_days(alloc, book)?;
    Ok(found.as_slice() == days)
}

/// Tells whether a book has the words of a busy trace on each of the days.
pub(crate) fn has_plain_words(
    alloc: Global,
    book: &DayBook,
    days: &[(u32, u64)],
    names: u32,
) -> Result<bool, AllocError>
    requires least { 6 ≤ names }
    requires most { names ≤ 512 }
{
    let mut traces = Vec::new(alloc);
    'days: for day in days {
        traces.push(busy(alloc, day.0, names)?)?;
    }
    let plain = DaySheet::plain(alloc, traces, names)?;
    Ok(plain.words().words() == book.words())
}
