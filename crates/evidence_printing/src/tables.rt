ghost use Rattle.std.specs.Prelude.{◌≡◌, ◌<◌, ◌≤◌, ◌^◌, All, IfOk, length, map};
ghost use Rattle.std.specs.Borrow.{Bor};
ghost use Rattle.std.specs.Thread.{IsSync};
ghost use Rattle.evidence_printing.specs.inner.Numbered.{AreTablesOf};
ghost use Rattle.kept_books.specs.KeptBooks.{traces_in};
ghost use Rattle.name_meetings.specs.Tables.{IsTableOf as IsMeetingTable};
ghost use Rattle.refute_tests.specs.Clearing.{HaveNamesBelow};
ghost use Rattle.task_rows.specs.Tables.{IsTableOf as IsSharingTable};
ghost use Rattle.trace_types.specs.declared.named_trace.NamedTrace.{NamedTrace};

use kept_books::KeptBook;
use name_meetings::{MeetingTable, meet_all};
use std::alloc::{AllocError, Global};
use std::thread::{Threads, join};
use task_rows::SharingTable;
use task_sharings::share_all;
use trace_paths::kept_traces;
use trace_types::NamedTrace;
use worker_limit::WorkerLimit;

/// The figures of each two names and of each two tasks of a catalogue in traces.
#[derive(Drop)]
pub(crate) struct FigureTables {
    /// The figures of names.
    pub meetings: MeetingTable,
    /// The figures of tasks.
    pub sharings: SharingTable,
}

/// Makes the table of the figures of names, by so many workers.
fn meet<R: Threads + Sync>(
    rt: &R,
    most: u32,
    alloc: Global,
    names: u32,
    traces: &[&NamedTrace],
) -> Result<MeetingTable, AllocError>
    requires few_names { names ≤ 512 }
    requires few { length traces.now < 2 ^ 32 }
    requires below { All (λ (t : Bor NamedTrace). HaveNamesBelow names t.now) traces.now }
    ensures names { IfOk result (λ table. table.names ≡ names) }
    ensures told { IfOk result
        (IsMeetingTable names (map (λ (t : Bor NamedTrace). t.now) traces.now)) }
{
    let workers = WorkerLimit { runtime: rt, most };
    meet_all(&workers, alloc, names, traces)
}

/// Makes the tables of the figures in traces: that of names by so many workers, and beside it that
/// of tasks.
fn tables_of<R: Threads + Sync>(
    rt: &R,
    most: u32,
    alloc: Global,
    names: u32,
    tasks: u32,
    traces: &[&NamedTrace],
) -> Result<FigureTables, AllocError>
    requires few_names { names ≤ 512 }
    requires few_tasks { tasks ≤ 64 }
    requires few { length traces.now < 2 ^ 32 }
    requires below { All (λ (t : Bor NamedTrace). HaveNamesBelow names t.now) traces.now }
    ensures names { IfOk result (λ tables. tables.meetings.names ≡ names) }
    ensures tasks { IfOk result (λ tables. tables.sharings.tasks ≡ tasks) }
    ensures met { IfOk result (λ tables. IsMeetingTable names
        (map (λ (t : Bor NamedTrace). t.now) traces.now) tables.meetings) }
    ensures shared { IfOk result (λ tables. IsSharingTable tasks
        (map (λ (t : Bor NamedTrace). t.now) traces.now) tables.sharings) }
{
    let (meetings, sharings) = join(
        rt,
        move || -> Result<MeetingTable, AllocError>
            requires sync { IsSync R.row }
            requires few_names { names ≤ 512 }
            requires few { length traces.now < 2 ^ 32 }
            requires below { All (λ (t : Bor NamedTrace). HaveNamesBelow names t.now)
                traces.now }
            ensures names { IfOk result (λ table. table.names ≡ names) }
            ensures told { IfOk result (IsMeetingTable names
                (map (λ (t : Bor NamedTrace). t.now) traces.entry.now)) }
        { meet(rt, most, alloc, names, traces) },
        move || -> Result<SharingTable, AllocError>
            requires few_tasks { tasks ≤ 64 }
            requires few { length traces.now < 2 ^ 32 }
            ensures tasks { IfOk result (λ table. table.tasks ≡ tasks) }
            ensures told { IfOk result (IsSharingTable tasks
                (map (λ (t : Bor NamedTrace). t.now) traces.entry.now)) }
        { share_all(alloc, tasks, traces) },
    );
    Ok(FigureTables {
        meetings: meetings?,
        sharings: sharings?,
    })
}

/// Makes the tables of the figures in the traces of a book: that of names by the workers, and beside
/// it, in one pass over the traces, that of tasks. The only error is out of memory.
pub(crate) fn make_tables<R: Threads + Sync>(
    workers: &WorkerLimit<'_, R>,
    alloc: Global,
    book: &KeptBook,
) -> Result<FigureTables, AllocError>
    ensures { IfOk result (λ tables. AreTablesOf book.now.known (traces_in book.now)
        tables.meetings tables.sharings) }
{
    let traces = kept_traces(alloc, book.day_book())?;
    let names = book.names();
    let tasks = book.catalogue().tasks();
    tables_of(workers.runtime, workers.most, alloc, names, tasks, &traces)
}
