ghost use Rattle.std.specs.Prelude.{◌≡◌, ◌<◌, ◌^◌, All, IfOk, length, map};
ghost use Rattle.std.specs.Borrow.{Bor};
ghost use Rattle.day_partitions.specs.Books.{all_traces};
ghost use Rattle.refute_tests.specs.Clearing.{HaveNamesBelow};
ghost use Rattle.trace_types.specs.declared.named_trace.NamedTrace.{NamedTrace};

use day_partitions::DayBook;
use std::alloc::{AllocError, Global};
use trace_types::NamedTrace;

/// How many traces a book keeps.
fn count_traces(book: &DayBook) -> usize
    ensures { result ≡ length (all_traces book.now.days) }
{
    let mut count = 0;
    'days: for place in 0..book.days() {
        count += book.traces(place).len();
    }
    count
}

/// Lists the kept traces, by day, and within a day in the order in which they were taken.
pub fn kept_traces(alloc: Global, book: &DayBook) -> Result<Vec<&NamedTrace>, AllocError>
    ensures traces { IfOk result (λ traces. map (λ (t : Bor NamedTrace). t.now) traces.items
        ≡ all_traces book.now.days) }
    ensures below { IfOk result (λ traces.
        All (λ (t : Bor NamedTrace). HaveNamesBelow book.now.names t.now) traces.items) }
    ensures few { IfOk result (λ traces. length traces.items < 2 ^ 32) }
{
    let mut traces = Vec::with_capacity(alloc, count_traces(book))?;
    'days: for place in 0..book.days() {
        'of_day: for trace in book.traces(place) {
            traces.push(trace)?;
        }
    }
    Ok(traces)
}
