//! Marks and counts of a given digest and of a book's traces together.
ghost use Rattle.std.specs.Prelude.{◌≡◌, ◌↔◌, ◌+◌, Contains, IfOk, IsTrue, length};
ghost use Rattle.kept_books.specs.KeptBooks.{traces_in};
ghost use Rattle.view_rows.specs.inner.Gathered.{AddsFirst, AreDaysOf, AreNameMarks, AreTaskMarks};
ghost use Rattle.view_rows.specs.inner.Gathered.{CountsOthers, days_in};
ghost use Rattle.kept_names.specs.Marking.{HaveRoom};

use judged_books::JudgedBook;
use kept_books::KeptBook;
use kept_names::{Marks, count_traces, mark_book};
use std::alloc::{AllocError, Global};

/// Marks the numbers below a count besides, as far as there are marks.
fn with_first(mut marks: Vec<bool>, count: usize) -> Vec<bool>
    ensures { AddsFirst count marks.items result.items }
{
    for place in 0..marks.len() {
        if place < count {
            marks[place] = true;
        }
    }
    marks
}

/// Marks the names and the tasks of a given digest, which are the first of the catalogue, and those
/// of a book's traces. The only error is out of memory.
pub(crate) fn mark_both(alloc: Global, judged: &JudgedBook<'_>) -> Result<Marks, AllocError>
    ensures names { IfOk result (λ marks. AreNameMarks judged.now marks.names.items) }
    ensures tasks { IfOk result (λ marks. AreTaskMarks judged.now marks.tasks.items) }
    ensures room { IfOk result HaveRoom }
{
    let table = judged.table();
    let Marks { names, tasks } = mark_book(alloc, judged.book())?;
    Ok(Marks {
        names: with_first(names, table.names.len()),
        tasks: with_first(tasks, table.tasks.len()),
    })
}

/// Tells whether a number is listed.
fn is_listed(numbers: &[u32], wanted: u32) -> bool
    ensures { IsTrue result ↔ Contains numbers.now wanted }
{
    'numbers: for number in numbers {
        if *number == wanted {
            return true;
        }
    }
    false
}

/// Counts the days of a book that are not listed.
fn count_new_days(book: &KeptBook, listed: &[u32]) -> u32
    ensures { CountsOthers listed.now (days_in book.now.book.days) result }
{
    let days = book.day_book();
    let mut count = 0;
    for place in 0..days.days() {
        if !is_listed(listed, days.day(place)) {
            count += 1;
        }
    }
    count
}

/// Counts the days of a given digest and of a book's traces, each once.
pub(crate) fn count_days(judged: &JudgedBook<'_>) -> u128
    ensures { AreDaysOf judged.now result }
{
    let table = judged.table();
    let new = count_new_days(judged.book(), &table.days);
    table.days.len() as u128 + u128::from(new)
}

/// Counts the traces that a given digest stands for and those of a book.
pub(crate) fn count_both(judged: &JudgedBook<'_>) -> u128
    ensures { result ≡ judged.now.given.table.traces + length (traces_in judged.now.book) }
{
    let table = judged.table();
    u128::from(table.traces) + u128::from(count_traces(judged.book()))
}
