//! Calls of a shared book that tests share. Each gives nothing where no turn or no memory is left.
ghost use Rattle.std.specs.Prelude.{◌≡◌};
ghost use Rattle.live_book.specs.Callers.{IsOfBook};

use crate::entries::{Row, row_of};
use crate::traces::{FULL, day_sheet};
use hypothesis_index::width;
use live_book::{Caller, DeedFault, Entry, LiveBook, RollFault};
use std::alloc::Global;
use std::sync::Wait;

/// Rolls a sheet of one trace.
pub(crate) fn roll<R: Wait>(
    rt: &R,
    alloc: Global,
    book: &LiveBook,
    caller: &mut Caller,
    day: u32,
    touching: bool,
) -> Option<Result<u32, RollFault>>
    requires names { book.now.names ≡ 2 }
    requires of { IsOfBook book.now caller.old }
    ensures of { IsOfBook book.now caller.new }
{
    let sheet = day_sheet(alloc, day, touching).ok()?;
    if caller.turns() == 0 {
        return None;
    }
    Some(book.roll(rt, caller, day, sheet))
}

/// Drops a day.
pub(crate) fn drop_day<R: Wait>(
    rt: &R,
    book: &LiveBook,
    caller: &mut Caller,
    day: u32,
) -> Option<Result<u32, DeedFault>>
    requires of { IsOfBook book.now caller.old }
    ensures of { IsOfBook book.now caller.new }
{
    if caller.turns() == 0 {
        return None;
    }
    Some(book.drop_day(rt, caller, day))
}

/// Keeps so many of the newest days.
pub(crate) fn keep<R: Wait>(
    rt: &R,
    book: &LiveBook,
    caller: &mut Caller,
    days: u32,
) -> Option<Result<u32, DeedFault>>
    requires of { IsOfBook book.now caller.old }
    ensures of { IsOfBook book.now caller.new }
{
    if caller.turns() == 0 {
        return None;
    }
    Some(book.keep_newest(rt, caller, days))
}

/// Asks for the words of two names.
pub(crate) fn ask<R: Wait>(
    rt: &R,
    alloc: Global,
    book: &LiveBook,
    caller: &mut Caller,
) -> Option<Vec<u64>>
    requires names { book.now.names ≡ 2 }
    requires of { IsOfBook book.now caller.old }
    ensures of { IsOfBook book.now caller.new }
{
    let mut words = Vec::from_elem(alloc, 0u64, width(2) as usize).ok()?;
    if caller.turns() == 0 {
        return None;
    }
    book.ask(rt, caller, words.as_mut_slice());
    Some(words)
}

/// Reads the journal from a position on.
pub(crate) fn read<R: Wait>(
    rt: &R,
    book: &LiveBook,
    caller: &mut Caller,
    from: u32,
) -> Option<Vec<Entry>>
    requires of { IsOfBook book.now caller.old }
    ensures of { IsOfBook book.now caller.new }
{
    if caller.turns() == 0 {
        return None;
    }
    book.journal(rt, caller, from).ok()
}

/// Asks for the last word of two names.
pub(crate) fn ask_last<R: Wait>(
    rt: &R,
    alloc: Global,
    book: &LiveBook,
    caller: &mut Caller,
) -> Option<u64>
    requires names { book.now.names ≡ 2 }
    requires of { IsOfBook book.now caller.old }
    ensures of { IsOfBook book.now caller.new }
{
    let words = ask(rt, alloc, book, caller)?;
    words.get(126).copied()
}

/// Asks for the words of two names, and tells how many they are where all are full.
pub(crate) fn ask_full<R: Wait>(
    rt: &R,
    alloc: Global,
    book: &LiveBook,
    caller: &mut Caller,
) -> Option<usize>
    requires names { book.now.names ≡ 2 }
    requires of { IsOfBook book.now caller.old }
    ensures of { IsOfBook book.now caller.new }
{
    let words = ask(rt, alloc, book, caller)?;
    if words.iter().all(|word| *word == FULL) {
        Some(words.len())
    } else {
        None
    }
}

/// Reads the journal from a position on, and gives the rows of its entries where they are two.
pub(crate) fn read_two<R: Wait>(
    rt: &R,
    book: &LiveBook,
    caller: &mut Caller,
    from: u32,
) -> Option<(Row, Row)>
    requires of { IsOfBook book.now caller.old }
    ensures of { IsOfBook book.now caller.new }
{
    let entries = read(rt, book, caller, from)?;
    if entries.len() != 2 {
        return None;
    }
    Some((row_of(&entries[0]), row_of(&entries[1])))
}
