ghost use Rattle.std.specs.Prelude.{◌≡◌, ℕ, List, All, IfOk, length, map};
ghost use Rattle.std.specs.Borrow.{Bor};
ghost use Rattle.hypothesis_index.specs.Places.{width_of};
ghost use Rattle.latency_report.specs.Reports.{IsReport};
ghost use Rattle.kept_books.specs.KeptBooks.{IsKeptBook, traces_in};
ghost use Rattle.model_meet.specs.RelationBits.{KeepsExclusion};
ghost use Rattle.trace_paths.specs.NumberedPaths.{IsNamedPath};
ghost use Rattle.trace_rules.specs.CriticalPaths.{AreCriticalPaths};
ghost use Rattle.trace_types.specs.Parts.{by_number};
ghost use Rattle.trace_types.specs.declared.named_trace.NamedTrace.{NamedTrace};

use crate::rows::make_rows;
use crate::tables::{add_lengths, measure_latencies, tabulate_paths, tabulate_traces};
use crate::{FullReport, SegmentRowList};
use kept_books::KeptBook;
use model_meet::Model;
use std::alloc::{AllocError, Global};
use std::thread::Threads;
use trace_paths::{critical_paths, kept_traces};
use trace_types::{NamedSegmentList, NamedTrace};
use worker_limit::WorkerLimit;

/// Reports on the kept traces of a book, which are at hand in their order, each with its critical
/// path: the report is that where the mutual exclusions survive by whose bits these are the critical
/// paths. It takes one pass over the traces. The only error is that memory ran out.
pub fn report_over(
    alloc: Global,
    book: &KeptBook,
    traces: &[&NamedTrace],
    paths: &[NamedSegmentList],
) -> Result<FullReport, AllocError>
    requires traces { map (λ (t : Bor NamedTrace). t.now) traces.now ≡ traces_in book.now }
    requires count { length paths.now ≡ length traces.now }
    requires named { All (IsNamedPath (length book.now.known.names)) paths.now }
    ensures { IfOk result (λ report. (words : List ℕ)
        → AreCriticalPaths by_number (KeepsExclusion words) (traces_in book.now) paths.now
        → IsReport book.now.known.names (KeepsExclusion words) (traces_in book.now) report) }
{
    let names = book.names();
    let durations = tabulate_traces(alloc, names, traces)?;
    let on_paths = tabulate_paths(alloc, names, paths)?;
    let latency = measure_latencies(alloc, traces)?;
    let rows = make_rows(alloc, book.catalogue(), durations, &on_paths)?;
    Ok(FullReport {
        traces: traces.len() as u32,
        critical: add_lengths(paths),
        latency,
        rows: SegmentRowList::of(rows),
    })
}

/// Reports on the kept traces of a book, where the mutual exclusions survive whose bits of these
/// words are 1; there are as many words as the names of the book need. The critical paths are found
/// by the workers; the rest takes one pass over the traces. The only error is that memory ran out.
pub fn report<R: Threads + Sync>(
    workers: &WorkerLimit<'_, R>,
    alloc: Global,
    book: &KeptBook,
    words: &[u64],
) -> Result<FullReport, AllocError>
    requires { length words.now ≡ width_of (length book.now.known.names) }
    ensures reported { IfOk result (IsReport book.now.known.names
        (KeepsExclusion words.now) (traces_in book.now)) }
    ensures kept { IsKeptBook book.now }
{
    let names = book.names();
    let model = Model::new(words, names);
    let traces = kept_traces(alloc, book.day_book())?;
    let paths = critical_paths(workers, alloc, &traces, &model)?;
    report_over(alloc, book, &traces, &paths)
}
