ghost use Rattle.std.specs.Prelude.{◌+◌, ◌<◌, length, IfOk, OnOk, IsTrue};
ghost use Rattle.counterexamples.specs.FirstRefuters.{AreFirstRefuters};
ghost use Rattle.counterexamples.specs.inner.Tables.{AreFirstBefore, AreNoted};
ghost use Rattle.counterexamples.specs.inner.Tables.{IsTraceAt};
ghost use Rattle.day_partitions.specs.Books.{IsBook};
ghost use Rattle.word_rows.specs.Rows.{below};

use crate::word_refuters::WordRefuters;
use crate::{Finding, FirstRefuters};
use day_partitions::DayBook;
use hypothesis_index::laws::{places_differ, places_fit};
use hypothesis_index::width;
use pipeline_tests::whole_row;
use std::alloc::{AllocError, Global};
use word_rows::Row;

/// Notes the finding for the bits of a row that have none yet.
fn note_row(words: &mut [WordRefuters], row: &Row, finding: Finding)
    requires { IsTrue (below (length words.old) row.now) }
    ensures { AreNoted words.old row.now finding words.new }
{
    'entries: for entry in row.entries() {
        words[entry.word as usize].note(entry.mask, finding);
    }
}

/// Notes what the trace at this place and index refutes first. The only error is out of memory.
fn note_trace(
    alloc: Global,
    words: &mut [WordRefuters],
    book: &DayBook,
    finding: Finding,
) -> Result<(), AllocError>
    requires kept { IsBook book.now }
    requires stands { IsTraceAt book.now.days finding }
    requires before { AreFirstBefore book.now words.old finding.place finding.index }
    ensures { OnOk result (AreFirstBefore book.now words.new finding.place (finding.index + 1)) }
{
    // For the proof alone.
    places_differ();
    places_fit();
    let row = whole_row(alloc, &book.traces(finding.place)[finding.index as usize])?;
    note_row(words, &row, finding);
    Ok(())
}

/// Notes what the traces of the day at a place refute first. The only error is out of memory.
fn note_day(
    alloc: Global,
    words: &mut [WordRefuters],
    book: &DayBook,
    place: u32,
) -> Result<(), AllocError>
    requires kept { IsBook book.now }
    requires day { place < length book.now.days }
    requires before { AreFirstBefore book.now words.old place 0 }
    ensures { OnOk result (AreFirstBefore book.now words.new (place + 1) 0) }
{
    let count = book.traces(place).len() as u32;
    'traces: for index in 0..count {
        note_trace(alloc, words, book, Finding { place, index })?;
    }
    Ok(())
}

/// Finds for each relation of a book's names and of tasks the first kept trace that refutes it, by
/// day, and within a day in the order in which the traces were taken. It takes one pass over the
/// kept traces. The only error is out of memory.
pub fn find_all(alloc: Global, book: &DayBook) -> Result<FirstRefuters, AllocError>
    ensures { IfOk result (AreFirstRefuters book.now.names book.now.days) }
{
    // For the proof alone.
    places_fit();
    let width = width(book.names());
    let mut words = Vec::from_elem(alloc, WordRefuters::new(), width as usize)?;
    'days: for place in 0..book.days() {
        note_day(alloc, words.as_mut_slice(), book, place)?;
    }
    Ok(FirstRefuters { words })
}
