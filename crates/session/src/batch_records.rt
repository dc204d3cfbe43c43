ghost use Rattle.std.specs.Prelude.{◌^◌, ◌+◌, ◌<◌, ◌↔◌, All, Contains, IsTrue, List, length, map};
ghost use Rattle.std.specs.Prelude.{IfErr, IfOk, OnOk};
ghost use Rattle.std.specs.Ordering.{nat_cmp};
ghost use Rattle.batch_sheets.specs.Splitting.{named_day};
ghost use Rattle.book_laws.specs.Shown.{AreShown};
ghost use Rattle.kept_books.specs.KeptBooks.{IsKeptBook, traces_in};
ghost use Rattle.refute_tests.specs.Clearing.{HaveNamesBelow};
ghost use Rattle.session.specs.Sheets.{AreSheets};
ghost use Rattle.session.specs.inner.AddSteps.{HasRoom, HasRoomCause};
ghost use Rattle.session_rules.specs.KeptTraces.{Kept};
ghost use Rattle.trace_types.specs.Listing.{ListsExactly};

use crate::add_fault::AddFault;
use batch_sheets::{RecordedDays, days_with, list_days, record_days, split_by_day};
use book_laws::laws::watch_lines_are_told_by_text;
use judged_books::GivenDigest;
use kept_books::KeptBook;
use mystery_io::Gate;
use session_rules::Limit;
use std::alloc::{AllocError, Global};
use std::thread::Threads;
use trace_types::NamedTrace;

/// How many days a book has at most.
const MOST_DAYS: u32 = 64;

/// Lists the different days of named traces, rising, where the book has room for them too.
pub(crate) fn list_days_within(
    alloc: Global,
    book: &KeptBook,
    named: &[NamedTrace],
) -> Result<Vec<u32>, AddFault>
    requires { length (traces_in book.now) + length named.now < 2 ^ 32 }
    ensures days { IfOk result
        (λ days. ListsExactly nat_cmp (Contains (map named_day named.now)) days.items) }
    ensures room { OnOk result (HasRoom book.now.book named.now) }
    ensures cause { IfErr result (HasRoomCause book.now.book named.now) }
    ensures kept { IsKeptBook book.now }
{
    let kept = book.day_book();
    let days = list_days(alloc, named)?;
    let count = days_with(kept, &days);
    if count > MOST_DAYS {
        return Err(AddFault::Over {
            limit: Limit::Days { count },
        });
    }
    Ok(days)
}

/// Tests whether the traces that a digest stands for, those of a book and so many more can be
/// counted in 64 bits.
pub(crate) fn can_count(given: &GivenDigest, book: &KeptBook, more: usize) -> bool
    requires { length (traces_in book.now) + more < 2 ^ 32 }
    ensures { IsTrue result
        ↔ (given.now.table.traces + (length (traces_in book.now) + more) < 2 ^ 64) }
{
    let kept = u64::from(book.trace_count()) + more as u64;
    given.table().traces.checked_add(kept).is_some()
}

/// Records the named traces of a batch, of which these are the days, day by day by so many workers,
/// who may wait for the gate: a sheet of each day, days rising, and the watch lines of each day after
/// every so many of a worker's traces, 0 for none. The only error is out of memory.
pub(crate) fn record_batch<R: Threads + Sync, G: Gate + Sync>(
    rt: &R,
    alloc: Global,
    book: &KeptBook,
    named: Vec<NamedTrace>,
    days: &[u32],
    workers: u32,
    watch: u32,
    gate: &G,
) -> Result<RecordedDays, AllocError>
    requires workers { 0 < workers }
    requires below { All (HaveNamesBelow (length book.now.known.names)) named.items }
    requires many { length named.items < 2 ^ 32 }
    requires days { ListsExactly nat_cmp (Contains (map named_day named.items)) days.now }
    ensures { IfOk result (λ r. (kept : List Kept) → AreShown book.now.known named.items kept
        → AreSheets book.now.known workers watch kept r.sheets.items r.watched.items) }
{
    // For the proof alone.
    watch_lines_are_told_by_text();
    let split = split_by_day(alloc, named, days)?;
    record_days(rt, alloc, book.names(), workers, watch, split, gate)
}
