ghost use Rattle.std.specs.Prelude.{◌≡◌, ◌≤◌};
ghost use Rattle.matrix_picture.specs.Marks.{mark_class, mark_edge, mark_of};

use page_rows::BetweenRow;
use picture_parts::part_of;

/// What a cell shows of two boxes.
#[derive(Clone, Copy, Debug, PartialEq, Eq)]
pub enum Mark {
    /// In all pairs of their names that are in one load, the first happens before the second.
    Full,
    /// Some names of the first happen before some of the second.
    Part,
    /// Some names are mutually exclusive.
    Exclusive,
    /// They overlap in some load.
    Overlap,
    /// Nothing: they are in no load together, or the second happens before the first.
    Nothing,
}

/// Finds what a cell shows.
pub(crate) fn mark_of(row: &BetweenRow) -> Mark
    ensures { result ≡ mark_of row.now }
{
    let both = row.both.get();
    let before = row.before.get();
    if both == 0 {
        Mark::Nothing
    } else if both <= before {
        Mark::Full
    } else if before > 0 {
        Mark::Part
    } else if row.exclusive.get() > 0 {
        Mark::Exclusive
    } else if row.overlap.is_some() {
        Mark::Overlap
    } else {
        Mark::Nothing
    }
}

/// Gives the class in which a mark is drawn.
pub(crate) fn class_of(mark: Mark) -> &'static str
    ensures { result.now ≡ mark_class mark }
{
    match mark {
        Mark::Full => "full",
        Mark::Part => "part",
        Mark::Exclusive => "excl",
        Mark::Overlap => "over",
        Mark::Nothing => "none",
    }
}

/// Gives the edge of a mark in a cell of 9, 12 or 16 pixels.
pub(crate) fn edge_of(mark: Mark, cell: u32, row: &BetweenRow) -> u32
    requires least { 9 ≤ cell }
    requires most { cell ≤ 16 }
    ensures value { result ≡ mark_edge mark cell row.now }
    ensures within { result ≤ cell }
{
    match mark {
        Mark::Full => cell - 1,
        Mark::Part => 3 + part_of(cell - 4, row.before.get(), row.both.get()),
        Mark::Exclusive => cell - 3,
        Mark::Overlap => 4,
        Mark::Nothing => 0,
    }
}
