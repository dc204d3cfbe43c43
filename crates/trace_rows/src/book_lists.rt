ghost use Rattle.std.specs.Prelude.{◌≡◌, IfOk, length, map};
ghost use Rattle.std.specs.Borrow.{Bor};
ghost use Rattle.std.specs.List.{All};
ghost use Rattle.kept_books.specs.KeptBooks.{traces_in};
ghost use Rattle.refute_tests.specs.Clearing.{HaveNamesBelow};
ghost use Rattle.trace_rows.specs.inner.PreparedBooks.{AreExclusionsOf};
ghost use Rattle.trace_types.specs.declared.named_trace.NamedTrace.{NamedTrace};

use judged_books::JudgedBook;
use model_meet::{Exclusions, Model};
use std::alloc::{AllocError, Global};
use trace_paths::kept_traces;
use trace_types::NamedTrace;

/// Lists the traces of a book, by day and within a day in order. The only error is that memory ran
/// out.
pub(crate) fn list_traces<'a>(
    alloc: Global,
    book: &JudgedBook<'a>,
) -> Result<Vec<&'a NamedTrace>, AllocError>
    ensures traces { IfOk result (λ traces. map (λ (t : Bor NamedTrace). t.now) traces.items
        ≡ traces_in book.now.book) }
    ensures below { IfOk result (λ traces. All (λ (t : Bor NamedTrace).
        HaveNamesBelow (length book.now.book.known.names) t.now) traces.items) }
{
    kept_traces(alloc, book.book().day_book())
}

/// Lists the mutual exclusions that survive a book and its given digest. The only error is that
/// memory ran out.
pub(crate) fn list_exclusions<'a>(
    alloc: Global,
    book: &'a JudgedBook<'_>,
) -> Result<Exclusions<'a>, AllocError>
    ensures { IfOk result (AreExclusionsOf book.now) }
{
    let model = Model::new(book.words(), book.book().names());
    Exclusions::of(alloc, &model)
}
