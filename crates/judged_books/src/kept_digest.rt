ghost use Rattle.std.specs.Prelude.{◌≡◌, ◌≤◌, [], IfOk, List, length, map};
ghost use Rattle.std.specs.Cmp.Lexicographic.{slice_cmp};
ghost use Rattle.std.specs.Ordering.{nat_cmp};
ghost use Rattle.book_laws.specs.Shown.{AreShown};
ghost use Rattle.hypothesis_index.specs.Places.{width_of};
ghost use Rattle.kept_books.specs.KeptBooks.{IsKeptBook, traces_in};
ghost use Rattle.kept_names.specs.Listings.{AreItemsBelow};
ghost use Rattle.session_rules.specs.KeptTraces.{Kept};
ghost use Rattle.trace_types.specs.NameOrder.{name_cmp};
ghost use Rattle.judged_books.specs.KeptDigests.{IsKeptTable};
ghost use Rattle.judged_books.specs.inner.KeptRows.{marked_rows, name_mark, task_mark};

use crate::kept_marks::{mark_names, mark_tasks};
use digest_text::{DigestTable, NameRow, TaskRow};
use hypothesis_index::laws::{pairs_follow, places_differ, places_fit};
use kept_books::KeptBook;
use kept_names::{Listed, list_names, list_tasks, mark_book};
use session_rules::KeptTrace;
use std::alloc::{AllocError, Global};
use trace_types::laws::{
    numbering_is_one_to_one, relations_are_symmetric, renamed_traces_leave_alike,
};
use trace_types::{NameText, NamedSegment, NamedTrace, Segment, Text};
use word_rows::laws::below_wider;

/// Lists the days of a book, rising. The only error is out of memory.
fn list_days(alloc: Global, book: &KeptBook) -> Result<Vec<u32>, AllocError>
    ensures days { IfOk result (λ days. days.items ≡ map (λ k. k.day) book.now.book.days) }
    ensures kept { IsKeptBook book.now }
{
    let count = book.days();
    let mut days = Vec::with_capacity(alloc, count as usize)?;
    'days: for place in 0..count {
        days.push(book.day_book().day(place))?;
    }
    Ok(days)
}

/// Makes the row of each name, with a mark for each one before it.
fn name_rows(
    alloc: Global,
    words: &[u64],
    count: u32,
    names: &[Listed<'_, NameText>],
) -> Result<Vec<NameRow>, AllocError>
    requires few { count ≤ 512 }
    requires width { length words.now ≡ width_of count }
    requires listed { AreItemsBelow name_cmp count names.now }
    ensures { IfOk result (λ rows. rows.items ≡ marked_rows (name_mark words.now) [] names.now) }
{
    let mut rows = Vec::with_capacity(alloc, names.len())?;
    'rows: for k in 0..names.len() {
        let item = &names[k];
        let marks = mark_names(alloc, words, count, &names[..k], item.number)?;
        let name = item.text.copy(alloc)?;
        rows.push(NameRow { name, marks })?;
    }
    Ok(rows)
}

/// Makes the row of each task, with a mark for each one before it.
fn task_rows(
    alloc: Global,
    words: &[u64],
    count: u32,
    tasks: &[Listed<'_, Text>],
) -> Result<Vec<TaskRow>, AllocError>
    requires few { count ≤ 512 }
    requires width { length words.now ≡ width_of count }
    requires listed { AreItemsBelow (slice_cmp nat_cmp) 64 tasks.now }
    ensures { IfOk result (λ rows. rows.items ≡ marked_rows (task_mark words.now) [] tasks.now) }
{
    let mut rows = Vec::with_capacity(alloc, tasks.len())?;
    'rows: for k in 0..tasks.len() {
        let item = &tasks[k];
        let marks = mark_tasks(alloc, words, count, &tasks[..k], item.number)?;
        let task = item.text.copy(alloc)?;
        rows.push(TaskRow { task, marks })?;
    }
    Ok(rows)
}

/// Makes the table of the digest of a book's traces. The only error is out of memory.
pub fn digest_of_kept(alloc: Global, book: &KeptBook) -> Result<DigestTable, AllocError>
    ensures { IfOk result (λ table. (kept : List Kept)
        → AreShown book.now.known (traces_in book.now) kept → IsKeptTable kept table) }
{
    let marks = mark_book(alloc, book)?;
    let names = list_names(alloc, book.catalogue(), &marks.names)?;
    let tasks = list_tasks(alloc, book.catalogue(), &marks.tasks)?;
    let words = book.words();
    let count = book.names();
    // For the proof alone.
    places_differ();
    places_fit();
    pairs_follow();
    below_wider();
    numbering_is_one_to_one::<NameText>();
    numbering_is_one_to_one::<Text>();
    relations_are_symmetric::<KeptTrace, Segment, NameText, Text, Text>();
    renamed_traces_leave_alike::<
        NamedTrace,
        NamedSegment,
        u32,
        u32,
        u32,
        KeptTrace,
        Segment,
        NameText,
        Text,
        Text,
    >();
    Ok(DigestTable {
        traces: u64::from(book.trace_count()),
        days: list_days(alloc, book)?,
        tasks: task_rows(alloc, words, count, &tasks)?,
        names: name_rows(alloc, words, count, &names)?,
    })
}
