ghost use Rattle.std.specs.Prelude.{◌≡◌, ◌<◌, ◌≤◌};
ghost use Rattle.name_meetings.specs.inner.Circles.{steps_between, is_in_row, width};

/// How many rows stand together. At 512 names these have some 300 KB, so they stay in a processor's
/// own cache while the traces go by.
pub(crate) const ROWS: u32 = 16;

/// Counts the steps from one name to another in the circle of names.
#[inline(always)]
pub(crate) fn steps_between(names: u32, one: u32, other: u32) -> u32
    requires few_names { names ≤ 512 }
    requires one { one < names }
    requires other { other < names }
    ensures is { result ≡ steps_between names one other }
    ensures below { result < names }
{
    if other < one {
        other + names - one
    } else {
        other - one
    }
}

/// Tells whether the other name stands in the row of the one.
#[inline(always)]
pub(crate) fn is_in_row(names: u32, one: u32, other: u32) -> bool
    requires few_names { names ≤ 512 }
    requires one { one < names }
    requires other { other < names }
    ensures { result ≡ is_in_row names one other }
{
    2 * steps_between(names, one, other) <= names
}

/// Counts the entries of a row.
pub(crate) fn width(names: u32) -> usize
    ensures { result ≡ width names }
{
    names as usize / 2 + 1
}
