ghost use Rattle.std.specs.Prelude.{◌≡◌, ◌<◌, ℕ, All, IfOk, List, length, map};
ghost use Rattle.std.specs.Borrow.{Bor};
ghost use Rattle.certificate_rows.specs.Orders.{numbered_name, numbered_task};
ghost use Rattle.evidence_printing.specs.inner.Places.{places_of};
ghost use Rattle.evidence_text.specs.Naming.{trace_fields};
ghost use Rattle.trace_types.specs.Segments.{SegmentName};

use crate::lists::{lend_names, lend_tasks};
use crate::places::list_places;
use evidence_text::TracePlace;
use kept_books::KeptBook;
use std::alloc::{AllocError, Global};
use trace_types::{NameText, Text};

/// What the rows of a book's evidence name.
#[derive(Drop)]
pub(crate) struct Texts<'t> {
    /// The names in their order.
    pub names: Vec<&'t NameText>,
    /// The tasks in their order.
    pub tasks: Vec<&'t Text>,
    /// The traces of the book.
    pub traces: Vec<TracePlace<'t>>,
}

/// Lists the texts of the names and tasks with these numbers, and where each trace of the book
/// stands. The only error is out of memory.
pub(crate) fn list_texts<'t>(
    alloc: Global,
    book: &'t KeptBook,
    names: &[u32],
    tasks: &[u32],
) -> Result<Texts<'t>, AllocError>
    requires names { All (λ n. n < length book.now.known.names) names.now }
    requires tasks { All (λ n. n < length book.now.known.tasks) tasks.now }
    ensures names { IfOk result (λ texts. map (λ (n : Bor SegmentName). n.now) texts.names.items
        ≡ map (numbered_name book.now.known) names.now) }
    ensures tasks { IfOk result (λ texts. map (λ (t : Bor (List ℕ)). t.now) texts.tasks.items
        ≡ map (numbered_task book.now.known) tasks.now) }
    ensures traces { IfOk result (λ texts. map trace_fields texts.traces.items
        ≡ places_of book.now.book.days) }
{
    let catalogue = book.catalogue();
    Ok(Texts {
        names: lend_names(alloc, catalogue, names)?,
        tasks: lend_tasks(alloc, catalogue, tasks)?,
        traces: list_places(alloc, book)?,
    })
}
