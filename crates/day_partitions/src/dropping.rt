//! A day is dropped from the tree and the list of days.
ghost use Rattle.std.specs.Prelude.{◌≡◌, ◌+◌, ◌-◌, ◌^◌, ◌<◌, drop, length, remove, vec_capacity};
ghost use Rattle.day_partitions.specs.Books.{all_traces};
ghost use Rattle.day_partitions.specs.inner.Slots.{shown_days, AreInSlots, HasTraceCount};

use crate::day::Day;
use crate::tree::Tree;
use row_pool::Steps;
use std::sync::ledger::Ledger;

/// Drops the day at this place, whose row is spare then, and tells how many traces it had.
pub(crate) fn drop_at<L: Ledger>(
    tree: &mut Tree,
    days: &mut Vec<Day>,
    place: usize,
    steps: &mut Steps<L>,
) -> usize
    requires slots { AreInSlots tree.old days.old.items }
    requires place { place < length days.old.items }
    ensures count { HasTraceCount days.old.items place result }
    ensures slots { AreInSlots tree.new days.new.items }
    ensures days { days.new.items ≡ remove days.old.items place }
    ensures width { tree.new.width ≡ tree.old.width }
    ensures spare { tree.new.spare ≡ tree.old.spare + 1 }
    ensures capacity { vec_capacity days.new ≡ vec_capacity days.old }
    ensures steps { steps.new ≡ steps.old + 6 }
{
    let dropped = days.remove(place);
    tree.remove(dropped.slot, steps);
    dropped.traces.len()
}

/// Drops the first days until only so many are left, and tells how many traces they had.
pub(crate) fn drop_oldest<L: Ledger>(
    tree: &mut Tree,
    days: &mut Vec<Day>,
    keep: usize,
    steps: &mut Steps<L>,
) -> usize
    requires slots { AreInSlots tree.old days.old.items }
    requires counted { length (all_traces (shown_days days.old.items)) < 2 ^ 32 }
    ensures count { result + length (all_traces (shown_days days.new.items))
        ≡ length (all_traces (shown_days days.old.items)) }
    ensures slots { AreInSlots tree.new days.new.items }
    ensures days { days.new.items ≡ drop (length days.old.items - keep) days.old.items }
    ensures width { tree.new.width ≡ tree.old.width }
    ensures spare { tree.new.spare ≡ tree.old.spare + (length days.old.items - keep) }
    ensures capacity { vec_capacity days.new ≡ vec_capacity days.old }
{
    let mut dropped = 0;
    'days: while days.len() > keep {
        dropped += drop_at(tree, days, 0, steps);
    }
    dropped
}
