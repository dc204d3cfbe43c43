ghost use Rattle.std.specs.Prelude.{ℕ, IfOk, IsTrue};
ghost use Rattle.hypothesis_index.specs.Places.{width_of};
ghost use Rattle.hypothesis_index.specs.Refuting.{RefutesTasks};
ghost use Rattle.pipeline_tests.specs.Rows.{IsWholeRow};
ghost use Rattle.refute_tests.specs.Clearing.{ClearsExactly, HaveNamesBelow};
ghost use Rattle.word_rows.specs.Rows.{below};

use crate::stays::Stay;
use crate::tasks::clear_tasks;
use refute_tests::clear_segments;
use std::alloc::{AllocError, Global};
use std::mem;
use trace_types::{NamedSegment, NamedTrace};
use word_rows::{Entry, Row, RowMaker};

/// The words of all tasks and of 512 names.
const MOST_WORDS: usize = 8302;

/// Estimates how many words the row of a trace has, so that its memory is taken at once: for each
/// segment the words of its pairs with those of lesser names, sixteen pairs a word.
fn estimate_words(trace: &NamedTrace) -> usize {
    let segments = trace.segments.items().len();
    segments
        .saturating_add(segments.saturating_mul(segments) / 32)
        .min(MOST_WORDS)
}

/// Room in which the rows of traces are made, one after the other. Its memory serves for each of
/// them, so once it holds the greatest row most rows take none.
#[derive(Drop)]
pub struct RowRoom {
    entries: Vec<Entry>,
    stays: Vec<Stay>,
    segments: Vec<NamedSegment>,
    alloc: Global,
}

impl RowRoom {
    /// Makes room that holds no memory yet.
    pub fn new(alloc: Global) -> RowRoom {
        RowRoom {
            entries: Vec::new(alloc),
            stays: Vec::new(alloc),
            segments: Vec::new(alloc),
            alloc,
        }
    }

    /// The row that clears the places of exactly those relations that the trace refutes. It has the
    /// memory of the room's entries until it is given back. The only error is that memory ran out.
    pub fn whole_row(&mut self, trace: &NamedTrace) -> Result<Row, AllocError>
        ensures exact { IfOk result (IsWholeRow trace.now) }
        ensures fits { IfOk result (λ row. (names : ℕ) → HaveNamesBelow names trace.now
            → IsTrue (below (width_of names) row)) }
    {
        let entries = mem::replace(&mut self.entries, Vec::new(self.alloc));
        let mut maker = RowMaker::over(entries, estimate_words(trace))?;
        clear_tasks(self.alloc, &mut self.stays, &mut maker, trace)?;
        clear_segments(self.alloc, &mut self.segments, &mut maker, trace)?;
        let row = maker.finish()?;
        Ok(row)
    }

    /// Takes a row's memory for the next row, in place of what the room has.
    pub fn give_back(&mut self, row: Row) {
        self.entries = row.into_entries();
    }
}

/// The row that clears the places of exactly those relations between tasks that the trace refutes.
/// The only error is that memory ran out.
pub fn task_row(alloc: Global, trace: &NamedTrace) -> Result<Row, AllocError>
    ensures exact { IfOk result (λ row. ClearsExactly row (λ r. RefutesTasks r trace.now)) }
    ensures fits { IfOk result (λ row. IsTrue (below 126 row)) }
{
    let mut maker = RowMaker::new(alloc);
    clear_tasks(alloc, &mut Vec::new(alloc), &mut maker, trace)?;
    let row = maker.finish()?;
    Ok(row)
}

/// The row that clears the places of exactly those relations that the trace refutes. The only error
/// is that memory ran out.
pub fn whole_row(alloc: Global, trace: &NamedTrace) -> Result<Row, AllocError>
    ensures exact { IfOk result (IsWholeRow trace.now) }
    ensures fits { IfOk result (λ row. (names : ℕ) → HaveNamesBelow names trace.now
        → IsTrue (below (width_of names) row)) }
{
    let mut room = RowRoom::new(alloc);
    room.whole_row(trace)
}
