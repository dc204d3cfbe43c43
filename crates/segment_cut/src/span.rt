ghost use Rattle.std.specs.Prelude.{◌<◌, All, length};
ghost use Rattle.segment_cut.specs.AdjustedTimes.{IsInClockRange};
ghost use Rattle.segment_cut.specs.Cutting.{IsSpan};
ghost use Rattle.segment_cut.specs.inner.Keys.{key_times};

/// Subtracts the least of the times in the keys from the greatest.
pub(crate) fn span(keys: &[(usize, i64, usize)]) -> u64
    requires some { 0 < length keys.now }
    requires in_range { All IsInClockRange (key_times keys.now) }
    ensures { IsSpan (key_times keys.now) result }
{
    let mut greatest = keys[0].1;
    let mut least = keys[0].1;
    for (_task, time, _place) in keys {
        greatest = greatest.max(*time);
        least = least.min(*time);
    }
    greatest.abs_diff(least)
}
