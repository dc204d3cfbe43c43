ghost use Rattle.std.specs.Prelude.{◌≡◌, map, IfOk};
ghost use Rattle.digest_merging.specs.inner.MergedRows.{joined_mark, mark_in};

use crate::places::Places;
use std::alloc::{AllocError, Global};

/// The mark of a pair of which nothing is known.
pub(crate) const UNKNOWN: u8 = b'.';

/// Joins two marks of a pair to one that says what either says.
pub(crate) fn joined_mark(first: u8, second: u8) -> u8
    ensures { result ≡ joined_mark first second }
{
    if first == UNKNOWN {
        second
    } else if second == UNKNOWN {
        first
    } else {
        first | second
    }
}

/// Finds the mark of a row at a place; unknown where there is none.
fn mark_in(marks: &[u8], place: Option<usize>) -> u8
    ensures { result ≡ mark_in marks.now place }
{
    let Some(place) = place else {
        return UNKNOWN;
    };
    match marks.get(place) {
        Some(mark) => *mark,
        None => UNKNOWN,
    }
}

/// Makes the marks of a name or a task from those of its row in each list, by the places of those
/// before it. The only error is out of memory.
pub(crate) fn marks_by(
    alloc: Global,
    first: &[u8],
    second: &[u8],
    earlier: &[Places],
) -> Result<Vec<u8>, AllocError>
    ensures { IfOk result (λ v. v.items ≡ map (λ q.
        joined_mark (mark_in first.now q.left) (mark_in second.now q.right)) earlier.now) }
{
    let mut marks = Vec::with_capacity(alloc, earlier.len())?;
    'places: for place in earlier {
        marks.push(joined_mark(mark_in(first, place.left), mark_in(second, place.right)))?;
    }
    Ok(marks)
}
