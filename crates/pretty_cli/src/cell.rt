ghost use Rattle.std.specs.Prelude.{◌≡◌, IfOk, string_bytes};
ghost use Rattle.pretty_cli.specs.Lines.{cell_text};

use crate::durations::{difference_text, duration_text, share_text};
use std::alloc::{AllocError, Global};

/// What stands in a column.
#[derive(Clone, Copy)]
pub(crate) enum Cell {
    /// There is no such column.
    Absent,
    /// Nothing.
    Empty,
    /// A number.
    Count(u64),
    /// A duration in nanoseconds.
    Time(u64),
    /// The first duration less the second.
    Difference(u64, u64),
    /// A part of a total.
    Share(u64, u64),
}

/// Writes what stands in a column.
pub(crate) fn cell_text(alloc: Global, cell: Cell) -> Result<String, AllocError>
    ensures { IfOk result (λ text. string_bytes text ≡ cell_text cell) }
{
    match cell {
        Cell::Absent | Cell::Empty => Ok(String::new(alloc)),
        Cell::Count(number) => format!(in alloc; "{number}"),
        Cell::Time(nanos) => duration_text(alloc, nanos),
        Cell::Difference(first, second) => difference_text(alloc, first, second),
        Cell::Share(part, total) => share_text(alloc, part, total),
    }
}
