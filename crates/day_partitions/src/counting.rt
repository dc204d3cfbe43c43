//! How many traces the days have together.
ghost use Rattle.std.specs.Prelude.{◌≡◌, ◌^◌, ◌<◌, length};
ghost use Rattle.day_partitions.specs.Books.{all_traces};
ghost use Rattle.day_partitions.specs.inner.Slots.{shown_days};

use crate::day::Day;

/// Counts the traces of all days.
pub(crate) fn count_traces(days: &[Day]) -> usize
    requires { length (all_traces (shown_days days.now)) < 2 ^ 32 }
    ensures { result ≡ length (all_traces (shown_days days.now)) }
{
    let mut count = 0;
    'days: for day in days {
        count += day.traces.len();
    }
    count
}
