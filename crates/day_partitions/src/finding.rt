//! Where a day stands in the list of days.
ghost use Rattle.std.specs.Prelude.{◌≡◌, ◌≤◌, ◌↔◌, length, false, IsTrue};
ghost use Rattle.day_partitions.specs.inner.Slots.{place_in_days, shown_days, IsDayAt};
ghost use Rattle.day_partitions.specs.Books.{AreRising, has_day};

use crate::day::Day;

/// How many days at the front are below this one: its place, where it is kept, and else the place
/// where it belongs.
pub(crate) fn find_place(days: &[Day], day: u32) -> usize
    ensures place { result ≡ place_in_days day days.now }
    ensures within { result ≤ length days.now }
{
    let mut place = 0;
    'days: while place < days.len() && days[place].day < day {
        place += 1;
    }
    place
}

/// Tests whether the day stands at this place.
pub(crate) fn is_day_at(days: &[Day], place: usize, day: u32) -> bool
    ensures { IsTrue result ↔ IsDayAt days.now place day }
{
    place < days.len() && days[place].day == day
}

/// Tests whether the day is kept.
pub(crate) fn is_kept(days: &[Day], day: u32) -> bool
    requires { AreRising (shown_days days.now) }
    ensures { result ≡ has_day (shown_days days.now) day }
{
    is_day_at(days, find_place(days, day), day)
}

/// Tests whether 64 days are kept and this is none of them.
pub(crate) fn is_full(days: &[Day], day: u32) -> bool
    requires { AreRising (shown_days days.now) }
    ensures { IsTrue result
        ↔ ((length days.now ≡ 64) × (has_day (shown_days days.now) day ≡ false)) }
{
    days.len() == 64 && !is_kept(days, day)
}
