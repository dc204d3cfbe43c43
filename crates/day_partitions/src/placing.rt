//! A day's sheet is taken into the tree and the list of days, for which there is room.
ghost use Rattle.std.specs.Prelude.{◌≡◌, ◌≢◌, ◌+◌, ◌-◌, ◌<◌, ◌≤◌, ◌⊎◌, length, All, Contains};
ghost use Rattle.std.specs.Prelude.{if◌then◌else◌, vec_capacity};
ghost use Rattle.day_partitions.specs.Books.{AreRising, has_day, with_day_traces};
ghost use Rattle.day_partitions.specs.Meets.{meets_of_add};
ghost use Rattle.day_partitions.specs.inner.Slots.{AreInSlots, ChangesOnly, HasRoom, IsExtended};
ghost use Rattle.day_partitions.specs.inner.Slots.{IsInserted, RoomAt, shown_days};

use crate::day::Day;
use crate::finding::{find_place, is_day_at};
use crate::tree::Tree;
use pipeline_tests::DaySheet;
use pipeline_tests::laws::common_lacks;
use row_pool::Steps;
use std::sync::ledger::Ledger;

/// Meets the leaf of the day at this place with the words of a sheet, and moves the sheet's traces
/// to the day's.
fn extend<L: Ledger>(
    tree: &mut Tree,
    days: &mut Vec<Day>,
    place: usize,
    sheet: DaySheet,
    steps: &mut Steps<L>,
)
    requires slots { AreInSlots tree.old days.old.items }
    requires place { place < length days.old.items }
    requires width { length sheet.words ≡ tree.old.width }
    requires room { RoomAt days.old.items place (length sheet.traces) }
    ensures slots { AreInSlots tree.new days.new.items }
    ensures extended { IsExtended days.old.items place sheet.traces days.new.items }
    ensures width { tree.new.width ≡ tree.old.width }
    ensures spare { tree.new.spare ≡ tree.old.spare }
    ensures capacity { vec_capacity days.new ≡ vec_capacity days.old }
    ensures steps { steps.new ≡ steps.old + 7 }
{
    // For the proof alone.
    common_lacks();
    let day = &mut days[place];
    tree.meet(day.slot, sheet.words().words(), steps);
    let mut traces = sheet.into_traces();
    let Ok(()) = day.traces.append(&mut traces) else {
        unreachable!();
    };
}

/// Gives the words of a sheet a missing leaf, and inserts its day at this place.
fn open<L: Ledger>(
    tree: &mut Tree,
    days: &mut Vec<Day>,
    place: usize,
    day: u32,
    sheet: DaySheet,
    steps: &mut Steps<L>,
)
    requires slots { AreInSlots tree.old days.old.items }
    requires place { place ≤ length days.old.items }
    requires width { length sheet.words ≡ tree.old.width }
    requires spare { tree.old.spare ≢ 0 }
    requires few { length days.old.items < 64 }
    requires capacity { 64 ≤ vec_capacity days.old }
    ensures slots { AreInSlots tree.new days.new.items }
    ensures inserted { IsInserted days.old.items place day sheet.traces days.new.items }
    ensures width { tree.new.width ≡ tree.old.width }
    ensures spare { tree.new.spare ≡ tree.old.spare - 1 }
    ensures capacity { vec_capacity days.old ≤ vec_capacity days.new }
    ensures steps { steps.new ≡ steps.old + 6 }
{
    let slot = tree.missing();
    tree.put(slot, sheet.words().words(), steps);
    let traces = sheet.into_traces();
    let Ok(()) = days.insert(place, Day { day, slot, traces }) else {
        unreachable!();
    };
}

/// Takes a day's sheet: its traces follow those of the day.
pub(crate) fn take_in<L: Ledger>(
    tree: &mut Tree,
    days: &mut Vec<Day>,
    day: u32,
    sheet: DaySheet,
    steps: &mut Steps<L>,
)
    requires slots { AreInSlots tree.old days.old.items }
    requires rising { AreRising (shown_days days.old.items) }
    requires width { length sheet.words ≡ tree.old.width }
    requires room { HasRoom tree.old days.old.items day (length sheet.traces) }
    requires capacity { 64 ≤ vec_capacity days.old }
    ensures slots { AreInSlots tree.new days.new.items }
    ensures days { shown_days days.new.items
        ≡ with_day_traces day sheet.traces (shown_days days.old.items) }
    ensures width { tree.new.width ≡ tree.old.width }
    ensures spare { tree.new.spare ≡ (if has_day (shown_days days.old.items) day
        then tree.old.spare else tree.old.spare - 1) }
    ensures others { ChangesOnly day days.old.items days.new.items }
    ensures capacity { 64 ≤ vec_capacity days.new }
    ensures steps { steps.new ≡ steps.old + meets_of_add (shown_days days.old.items) day }
{
    let place = find_place(days, day);
    if is_day_at(days, place, day) {
        extend(tree, days, place, sheet, steps);
    } else {
        open(tree, days, place, day, sheet, steps);
    }
}
