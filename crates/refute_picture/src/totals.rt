ghost use Rattle.std.specs.Prelude.{◌≡◌, ◌++◌, OnOk};
ghost use Rattle.std.specs.List.{count_by};
ghost use Rattle.refute_picture.specs.Totals.{is_of_kind, totals_text};

use markup::{Piece, push_pieces};
use page_rows::BetweenRow;
use std::alloc::AllocError;

/// What pairs of boxes are counted.
#[derive(Clone, Copy, Debug)]
pub enum Kind {
    /// Those with names in one load.
    Together,
    /// Those of which the first happens before the second.
    Before,
    /// Those with names that are mutually exclusive.
    Exclusive,
}

/// Tells whether two boxes are of a kind.
fn is_of_kind(kind: Kind, row: &BetweenRow) -> bool
    ensures { result ≡ is_of_kind kind row.now }
{
    match kind {
        Kind::Together => row.first.get() <= row.second.get() && row.both.get() > 0,
        Kind::Before => row.both.get() > 0 && row.both.get() <= row.before.get(),
        Kind::Exclusive => row.first.get() <= row.second.get() && row.exclusive.get() > 0,
    }
}

/// Counts the pairs of boxes of a kind.
pub(crate) fn count_of(kind: Kind, rows: &[BetweenRow]) -> usize
    ensures { result ≡ count_by (is_of_kind kind) rows.now }
{
    let mut count = 0usize;
    'rows: for row in rows {
        if is_of_kind(kind, row) {
            count += 1;
        }
    }
    count
}

/// Appends how many pairs of boxes there are of each kind.
pub(crate) fn push_totals(
    bytes: &mut Vec<u8>,
    together: usize,
    before: usize,
    exclusive: usize,
    overlaps: usize,
) -> Result<(), AllocError>
    ensures { OnOk result
        (bytes.new.items ≡ bytes.old.items ++ totals_text together before exclusive overlaps) }
{
    push_pieces(
        bytes,
        &[
            Piece::Fixed("<p class=\"note\">Pairs in one load: "),
            Piece::Number(together as u128),
            Piece::Fixed(". The one before the other: "),
            Piece::Number(before as u128),
            Piece::Fixed("; mutually exclusive, in some names at least: "),
            Piece::Number(exclusive as u128),
            Piece::Fixed("; overlapping in some load: "),
            Piece::Number(overlaps as u128),
            Piece::Fixed(".</p>"),
        ],
    )
}
