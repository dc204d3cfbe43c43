//! What sheets of several days need, before the first of them is added.
ghost use Rattle.std.specs.Prelude.{◌≡◌, ◌≤◌, length, vec_capacity, IsOk, OnErr, OnOk};
ghost use Rattle.day_partitions.specs.Batches.{AreNoneKept, new_days};
ghost use Rattle.day_partitions.specs.Books.{AreRising};
ghost use Rattle.day_partitions.specs.inner.Slots.{AreSameDays, HasTraceRoom, shown_days};
ghost use Rattle.day_partitions.specs.inner.Rooms.{HaveTraceRoom};
ghost use Rattle.day_partitions.specs.inner.Trees.{with_spare_rows};

use crate::DatedSheet;
use crate::day::Day;
use crate::finding::is_kept;
use crate::room::make_trace_room;
use crate::tree::Tree;
use std::alloc::AllocError;

/// How many of the sheets are of a day that is not kept.
pub(crate) fn count_new(days: &[Day], sheets: &[DatedSheet]) -> usize
    requires { AreRising (shown_days days.now) }
    ensures count { result ≡ new_days (shown_days days.now) sheets.now }
    ensures few { result ≤ length sheets.now }
{
    let mut new = 0;
    'sheets: for dated in sheets {
        if !is_kept(days, dated.day) {
            new += 1;
        }
    }
    new
}

/// Makes room for the traces of all the sheets. The only error is that memory ran out.
fn make_trace_rooms(days: &mut Vec<Day>, sheets: &[DatedSheet]) -> Result<(), AllocError>
    requires { AreRising (shown_days days.old.items) }
    ensures room { OnOk result (HaveTraceRoom days.new.items sheets.now) }
    ensures same { AreSameDays days.old.items days.new.items }
    ensures sure { AreNoneKept (shown_days days.old.items) sheets.now → IsOk result }
    ensures capacity { vec_capacity days.new ≡ vec_capacity days.old }
{
    'sheets: for dated in sheets {
        make_trace_room(days, dated.day, dated.sheet.traces().len())?;
    }
    Ok(())
}

/// Makes room for the traces of all the sheets, and rows for so many new days. The only error is
/// that memory ran out.
pub(crate) fn make_rooms(
    tree: &mut Tree,
    days: &mut Vec<Day>,
    sheets: &[DatedSheet],
    new: u32,
) -> Result<(), AllocError>
    requires rising { AreRising (shown_days days.old.items) }
    requires few { new ≤ 64 }
    ensures room { OnOk result (HaveTraceRoom days.new.items sheets.now) }
    ensures rows { OnOk result (tree.new ≡ with_spare_rows tree.old new) }
    ensures err { OnErr result (tree.new ≡ tree.old) }
    ensures same { AreSameDays days.old.items days.new.items }
    ensures sure { AreNoneKept (shown_days days.old.items) sheets.now → new ≤ tree.old.spare
        → IsOk result }
    ensures capacity { vec_capacity days.new ≡ vec_capacity days.old }
{
    make_trace_rooms(days, sheets)?;
    tree.reserve(new)
}
