ghost use Rattle.std.specs.Prelude.{◌≡◌, ◌<◌, ◌^◌, ◌++◌, IfOk, OnOk, length, map};
ghost use Rattle.evidence_printing.specs.inner.Places.{places_from, places_of};
ghost use Rattle.evidence_text.specs.Naming.{trace_fields};

use evidence_text::TracePlace;
use kept_books::KeptBook;
use std::alloc::{AllocError, Global};
use trace_types::NamedTrace;

/// Appends where each of the traces of one day stands.
fn add_places<'t>(
    traces: &'t [NamedTrace],
    places: &mut Vec<TracePlace<'t>>,
) -> Result<(), AllocError>
    requires { length traces.now < 2 ^ 32 }
    ensures { OnOk result (map trace_fields places.new.items
        ≡ map trace_fields places.old.items ++ places_from 0 traces.now) }
{
    'traces: for index in 0..traces.len() {
        let trace = &traces[index];
        places.push(TracePlace {
            day: trace.day,
            index: index as u32,
            request: &trace.request,
        })?;
    }
    Ok(())
}

/// Lists where each trace of a book stands: its day, its index among those of its day and its
/// request. The only error is out of memory.
pub(crate) fn list_places(alloc: Global, book: &KeptBook) -> Result<Vec<TracePlace<'_>>, AllocError>
    ensures { IfOk result (λ places. map trace_fields places.items
        ≡ places_of book.now.book.days) }
{
    let mut places = Vec::with_capacity(alloc, book.trace_count() as usize)?;
    'days: for place in 0..book.days() {
        add_places(book.traces(place), &mut places)?;
    }
    Ok(places)
}
