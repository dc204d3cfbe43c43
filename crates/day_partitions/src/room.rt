//! Room for more traces and for new days, which is made before anything is changed.
ghost use Rattle.std.specs.Prelude.{◌≡◌, ◌≢◌, ◌-◌, false, true, IsOk, OnErr, OnOk, vec_capacity};
ghost use Rattle.day_partitions.specs.Books.{AreRising, has_day};
ghost use Rattle.day_partitions.specs.inner.Slots.{AreSameDays, HasTraceRoom, shown_days};

use crate::day::Day;
use crate::finding::{find_place, is_day_at, is_kept};
use crate::tree::Tree;
use std::alloc::AllocError;

/// Makes room for so many more traces of the day, where it is kept. The only error is that memory
/// ran out.
pub(crate) fn make_trace_room(days: &mut Vec<Day>, day: u32, more: usize) -> Result<(), AllocError>
    requires { AreRising (shown_days days.old.items) }
    ensures room { OnOk result (HasTraceRoom days.new.items day more) }
    ensures same { AreSameDays days.old.items days.new.items }
    ensures sure { has_day (shown_days days.old.items) day ≡ false → IsOk result }
    ensures capacity { vec_capacity days.new ≡ vec_capacity days.old }
{
    let place = find_place(days, day);
    if is_day_at(days, place, day) {
        return days[place].traces.reserve(more);
    }
    Ok(())
}

/// Makes room for so many more traces of the day, or a row for a new day. The only error is that
/// memory ran out.
pub(crate) fn make_room(
    tree: &mut Tree,
    days: &mut Vec<Day>,
    day: u32,
    more: usize,
) -> Result<(), AllocError>
    requires { AreRising (shown_days days.old.items) }
    ensures room { OnOk result (HasTraceRoom days.new.items day more) }
    ensures row { OnOk result (has_day (shown_days days.old.items) day ≡ false
        → tree.new.spare ≢ 0) }
    ensures same { AreSameDays days.old.items days.new.items }
    ensures leaves { tree.new.leaves ≡ tree.old.leaves }
    ensures width { tree.new.width ≡ tree.old.width }
    ensures spare { tree.new.spare - 1 ≡ tree.old.spare - 1 }
    ensures kept { has_day (shown_days days.old.items) day ≡ true → tree.new ≡ tree.old }
    ensures err { OnErr result (tree.new ≡ tree.old) }
    ensures sure { has_day (shown_days days.old.items) day ≡ false → tree.old.spare ≢ 0
        → IsOk result }
    ensures capacity { vec_capacity days.new ≡ vec_capacity days.old }
{
    if is_kept(days, day) {
        return make_trace_room(days, day, more);
    }
    make_trace_room(days, day, more)?;
    if tree.spare() == 0 {
        return tree.reserve(1);
    }
    Ok(())
}
