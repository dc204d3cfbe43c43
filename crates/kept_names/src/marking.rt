ghost use Rattle.std.specs.Prelude.{◌≡◌, ◌∷◌, [], length, map, IfOk};
ghost use Rattle.kept_names.specs.Marking.{AreMarksOf, HaveRoom, MarksMore};
ghost use Rattle.kept_books.specs.KeptBooks.{traces_in};
ghost use Rattle.trace_types.specs.NamedSegments.{number_of_name, number_of_task};
ghost use Rattle.trace_types.specs.Parts.{by_number, segments_of};

use crate::marks::Marks;
use kept_books::KeptBook;
use std::alloc::{AllocError, Global};
use trace_types::{NamedSegment, NamedTrace};

/// Marks the name and the task of a segment.
fn mark_segment(marks: &mut Marks, segment: &NamedSegment)
    requires { HaveRoom marks.old }
    ensures { MarksMore (segment.now ∷ []) marks.old marks.new }
{
    marks.names[segment.name as usize] = true;
    marks.tasks[segment.task as usize] = true;
}

/// Marks the names and the tasks of a trace.
fn mark_trace(marks: &mut Marks, trace: &NamedTrace)
    requires { HaveRoom marks.old }
    ensures { MarksMore trace.now.segments marks.old marks.new }
{
    for segment in trace.segments.items() {
        mark_segment(marks, segment);
    }
}

/// Marks the names and the tasks of traces.
fn mark_traces(marks: &mut Marks, traces: &[NamedTrace])
    requires { HaveRoom marks.old }
    ensures { MarksMore (segments_of by_number traces.now) marks.old marks.new }
{
    for trace in traces {
        mark_trace(marks, trace);
    }
}

/// Makes marks of no number.
fn no_marks(alloc: Global) -> Result<Marks, AllocError>
    ensures room { IfOk result HaveRoom }
    ensures names { IfOk result (λ marks. AreMarksOf [] marks.names.items) }
    ensures tasks { IfOk result (λ marks. AreMarksOf [] marks.tasks.items) }
{
    Ok(Marks {
        names: Vec::from_elem(alloc, false, 512)?,
        tasks: Vec::from_elem(alloc, false, 64)?,
    })
}

/// Marks the names and the tasks of a book's traces. The only error is out of memory.
pub fn mark_book(alloc: Global, book: &KeptBook) -> Result<Marks, AllocError>
    ensures names { IfOk result (λ marks. AreMarksOf
        (map number_of_name (segments_of by_number (traces_in book.now)))
        marks.names.items) }
    ensures tasks { IfOk result (λ marks. AreMarksOf
        (map number_of_task (segments_of by_number (traces_in book.now)))
        marks.tasks.items) }
    ensures room { IfOk result HaveRoom }
{
    let days = book.days();
    let mut marks = no_marks(alloc)?;
    for place in 0..days {
        mark_traces(&mut marks, book.traces(place));
    }
    Ok(marks)
}

/// Counts the traces of a book.
pub fn count_traces(book: &KeptBook) -> u32
    ensures { result ≡ length (traces_in book.now) }
{
    let days = book.days();
    let mut count = 0;
    for place in 0..days {
        count += book.traces(place).len();
    }
    count as u32
}
