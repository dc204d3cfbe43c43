ghost use Rattle.std.specs.Prelude.{◌≡◌, ◌≤◌};
ghost use Rattle.pretty_cli.specs.Fields.{texts_of};
ghost use Rattle.pretty_cli.specs.Relations.{exclusion_cells, gap_cell, order_cells};
ghost use Rattle.pretty_cli.specs.Relations.{support_cells, support_place};

use crate::cell::Cell;
use crate::fields::{field, number_at, number_of};

/// Makes the column of a gap in nanoseconds, which may be negative.
fn gap_cell(text: &str) -> Cell
    ensures { result ≡ gap_cell text.now }
{
    match text.strip_prefix("-") {
        Some(digits) => Cell::Difference(0, number_of(digits)),
        None => Cell::Time(number_of(text)),
    }
}

/// Makes the columns of an order.
pub(crate) fn order_cells(fields: &[&str]) -> [Cell; 4]
    ensures { result ≡ order_cells (texts_of fields.now) }
{
    [
        Cell::Count(number_at(fields, 7)),
        gap_cell(field(fields, 8)),
        gap_cell(field(fields, 9)),
        Cell::Absent,
    ]
}

/// Makes the columns of a mutual exclusion.
pub(crate) fn exclusion_cells(fields: &[&str]) -> [Cell; 4]
    ensures { result ≡ exclusion_cells (texts_of fields.now) }
{
    [
        Cell::Count(number_at(fields, 7)),
        gap_cell(field(fields, 10)),
        Cell::Empty,
        Cell::Absent,
    ]
}

/// Finds the field of a relation that few traces refute in which the number of traces is that
/// support it.
pub(crate) fn support_place(fields: &[&str]) -> usize
    ensures place { result ≡ support_place (texts_of fields.now) }
    ensures small { result ≤ 8 }
{
    if field(fields, 1) == "pipe" { 4 } else { 8 }
}

/// Makes the columns of a row that has a number of traces alone, in this field.
pub(crate) fn support_cells(fields: &[&str], index: usize) -> [Cell; 4]
    ensures { result ≡ support_cells (texts_of fields.now) index }
{
    [
        Cell::Count(number_at(fields, index)),
        Cell::Empty,
        Cell::Empty,
        Cell::Absent,
    ]
}
