//! Drawn commands, done to a book of days and to a plain list of counts.
ghost use Rattle.std.specs.Prelude.{◌≡◌, ◌+◌, ◌≤◌, IfOk};

use crate::day_books::{add_sheet, drop_one, has_days, has_plain_words, keep, widen};
use crate::traces::{busy, sheet_of};
use day_partitions::DayBook;
use std::alloc::{AllocError, Global};
use std::process::Abort;
use std::test::Fail;

/// Lists the days with a count above 0, each with its count.
fn list_counts(alloc: Global, counts: &[u64; 8]) -> Result<Vec<(u32, u64)>, AllocError> {
    let mut days = Vec::new(alloc);
    for day in 0..8u32 {
        let count = counts[day as usize];
        if count > 0 {
            days.push((day, count))?;
        }
    }
    Ok(days)
}

/// Clears all counts above 0 but the last so many.
fn keep_last(counts: &mut [u64; 8], days: u32) {
    let mut left = days;
    for below in 0..8usize {
        let day = 7 - below;
        if counts[day] > 0 {
            if left == 0 {
                counts[day] = 0;
            } else {
                left -= 1;
            }
        }
    }
}

/// Does to counts what a drawn command does to days.
fn count_drawn(counts: &mut [u64; 8], draw: u32) {
    let day = (draw % 8) as usize;
    match draw / 8 % 8 {
        0 | 1 => counts[day] = 0,
        2 => keep_last(counts, 2 + draw % 4),
        3 => {}
        _ => counts[day] = counts[day].wrapping_add(1),
    }
}

/// Adds a sheet of a busy trace to its day.
fn add_busy(
    rt: &impl Abort,
    alloc: Global,
    book: &mut DayBook,
    day: u32,
    names: u32,
) -> Result<(), AllocError>
    requires names { book.old.names ≡ names }
    requires least { 6 ≤ names }
    requires most { names ≤ 512 }
    ensures { book.new.names ≡ names }
{
    let trace = busy(alloc, day, names)?;
    let sheet = sheet_of(alloc, trace, names)?;
    add_sheet(rt, book, day, sheet);
    Ok(())
}

/// Carries out a drawn command, a drop, a keep, a widening or an add, and tells how many names
/// the book has.
fn obey_drawn(
    rt: &impl Abort,
    alloc: Global,
    book: &mut DayBook,
    draw: u32,
    names: u32,
) -> Result<u32, AllocError>
    requires names { book.old.names ≡ names }
    requires least { 6 ≤ names }
    requires most { names ≤ 500 }
    ensures names { IfOk result (λ n. book.new.names ≡ n) }
    ensures least { IfOk result (λ n. 6 ≤ n) }
    ensures most { IfOk result (λ n. n ≤ names + 1) }
{
    let day = draw % 8;
    match draw / 8 % 8 {
        0 | 1 => {
            let _ = drop_one(book, day);
            Ok(names)
        }
        2 => {
            keep(book, 2 + draw % 4);
            Ok(names)
        }
        3 => {
            widen(book, names + 1)?;
            Ok(names + 1)
        }
        _ => {
            add_busy(rt, alloc, book, day, names)?;
            Ok(names)
        }
    }
}

/// Tells whether a book has the days with a count above 0, and the words of a busy trace on each.
fn has_counts(
    alloc: Global,
    book: &DayBook,
    counts: &[u64; 8],
    names: u32,
) -> Result<bool, AllocError>
    requires least { 6 ≤ names }
    requires most { names ≤ 512 }
{
    let days = list_counts(alloc, counts)?;
    Ok(has_days(alloc, book, &days)? && has_plain_words(alloc, book, &days, names)?)
}

#[test]
fn drawn_commands_leave_the_days_of_a_plain_list(rt: HostRuntime) -> Result<(), Fail> {
    let mut book = DayBook::new(rt.alloc(), 6)?;
    let mut counts = [0u64; 8];
    let mut names = 6;
    let mut seed = 1u32;
    'steps: for step in 0..32u32 {
        seed = seed.wrapping_mul(1_664_525).wrapping_add(1_013_904_223);
        let draw = seed >> 16;
        names = obey_drawn(&rt, rt.alloc(), &mut book, draw, names)?;
        count_drawn(&mut counts, draw);
        let same = has_counts(rt.alloc(), &book, &counts, names)?;
        assert!(rt; same, "days and words at {step}");
    }
    Ok(())
}
