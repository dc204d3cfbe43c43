ghost use Rattle.std.specs.Prelude.{◌≡◌, ℕ, List, All, IfOk, length, map};
ghost use Rattle.std.specs.Borrow.{Bor};
ghost use Rattle.hypothesis_index.specs.Places.{width_of};
ghost use Rattle.kept_books.specs.KeptBooks.{traces_in};
ghost use Rattle.model_meet.specs.RelationBits.{KeepsExclusion};
ghost use Rattle.slow_tail.specs.SlowReports.{IsSlowReport};
ghost use Rattle.trace_paths.specs.NumberedPaths.{IsNamedPath};
ghost use Rattle.trace_rules.specs.CriticalPaths.{AreCriticalPaths};
ghost use Rattle.trace_types.specs.Parts.{by_number};
ghost use Rattle.trace_types.specs.declared.named_trace.NamedTrace.{NamedTrace};

use crate::marking::{find_slow, list_latencies};
use crate::names::mark_names;
use crate::path_tables::tabulate_paths;
use crate::rows::make_rows;
use crate::{SlowReport, TailRowList};
use kept_books::KeptBook;
use model_meet::Model;
use std::alloc::{AllocError, Global};
use std::thread::Threads;
use trace_paths::{critical_paths, kept_traces};
use trace_types::{NamedSegmentList, NamedTrace};
use worker_limit::WorkerLimit;

/// Reports on the slowest of the kept traces of a book, which are at hand in their order, each with
/// its critical path: the report is that where the mutual exclusions survive by whose bits these are
/// the critical paths. It takes one pass over the traces, and linear time on average to tell the
/// slow ones. The only error is that memory ran out.
pub fn tail_over(
    alloc: Global,
    book: &KeptBook,
    traces: &[&NamedTrace],
    paths: &[NamedSegmentList],
) -> Result<SlowReport, AllocError>
    requires traces { map (λ (t : Bor NamedTrace). t.now) traces.now ≡ traces_in book.now }
    requires count { length paths.now ≡ length traces.now }
    requires named { All (IsNamedPath (length book.now.known.names)) paths.now }
    ensures { IfOk result (λ report. (words : List ℕ)
        → AreCriticalPaths by_number (KeepsExclusion words) (traces_in book.now) paths.now
        → IsSlowReport book.now.known.names (KeepsExclusion words) (traces_in book.now) report) }
{
    let names = book.names();
    let latencies = list_latencies(alloc, traces)?;
    let slow = find_slow(alloc, &latencies)?;
    let tables = tabulate_paths(alloc, names, paths, &slow.marks)?;
    let marked = mark_names(alloc, names, traces)?;
    let rows = make_rows(alloc, book.catalogue(), &marked, &tables)?;
    Ok(SlowReport {
        traces: traces.len() as u32,
        slow: slow.count,
        floor: slow.floor,
        rows: TailRowList::of(rows),
    })
}

/// Reports on the slowest of the kept traces of a book, where the mutual exclusions survive whose
/// bits of these words are 1; there are as many words as the names of the book need. The critical
/// paths are found by the workers; the rest takes one pass over the traces, and linear time on
/// average to tell the slow ones. The only error is that memory ran out.
pub fn tail<R: Threads + Sync>(
    workers: &WorkerLimit<'_, R>,
    alloc: Global,
    book: &KeptBook,
    words: &[u64],
) -> Result<SlowReport, AllocError>
    requires { length words.now ≡ width_of (length book.now.known.names) }
    ensures { IfOk result (IsSlowReport book.now.known.names
        (KeepsExclusion words.now) (traces_in book.now)) }
{
    let names = book.names();
    let model = Model::new(words, names);
    let traces = kept_traces(alloc, book.day_book())?;
    let paths = critical_paths(workers, alloc, &traces, &model)?;
    tail_over(alloc, book, &traces, &paths)
}
