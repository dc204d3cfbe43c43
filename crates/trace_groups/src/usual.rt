ghost use Rattle.std.specs.Prelude.{◌≡◌, ◌+◌, ◌&&◌, ◌<◌, ◌^◌, ℕ, IfOk, OnOk, Some, count_by, length, slice_get};
ghost use Rattle.trace_groups.specs.inner.Counts.{AreTotals, is_usual_row, total_in};
ghost use Rattle.trace_groups.specs.inner.Names.{is_name};
ghost use Rattle.trace_quality.specs.Measures.{one_if};
ghost use Rattle.indexmap.specs.IndexMap.{keys};

use crate::counts::{Counts, count_key, count_of};
use crate::names::Name;
use indexmap::IndexMap;
use std::alloc::{AllocError, Global};

/// Tells whether nine of ten of the traces that begin with the first name have the second.
fn is_usual(counts: &Counts, begin: Name, name: Name) -> bool
    ensures { result ≡ is_usual_row counts.now (begin, name) }
{
    9 * count_of(counts, &(begin, begin)) as u128 <= 10 * count_of(counts, &(begin, name)) as u128
}

/// Counts the usual ones among names of a trace that begins with this one.
pub(crate) fn count_usual(counts: &Counts, begin: Name, names: &[Name]) -> usize
    ensures { result ≡ count_by (λ (name : ℕ × ℕ). is_usual_row counts.now (begin, name)) names.now }
{
    let mut count = 0usize;
    'names: for index in 0..names.len() {
        if is_usual(counts, begin, names[index]) {
            count += 1;
        }
    }
    count
}

/// Lends the key at an index.
fn key_at(counts: &Counts, index: usize) -> (Name, Name)
    requires { index < length (keys counts.now) }
    ensures { slice_get (keys counts.now) index ≡ Some result }
{
    match counts.get_index(index) {
        Some((key, _)) => *key,
        None => unreachable!(),
    }
}

/// Counts a name once more where it begins traces of which a row is usual.
fn add_usual(
    counts: &Counts,
    totals: &mut IndexMap<Name, usize>,
    row: (Name, Name),
) -> Result<(), AllocError>
    requires { total_in totals.old row.0 < usize.MAX }
    ensures { OnOk result ((name : ℕ × ℕ) → total_in totals.new name ≡ total_in totals.old name
        + one_if (is_name name row.0 && is_usual_row counts.now row)) }
{
    if is_usual(counts, row.0, row.1) {
        count_key(totals, row.0)?;
    }
    Ok(())
}

/// Counts the usual names of the traces that begin with each name.
pub(crate) fn total_usual(
    alloc: Global,
    counts: &Counts,
) -> Result<IndexMap<Name, usize>, AllocError>
    ensures { IfOk result (AreTotals counts.now) }
{
    let mut totals = IndexMap::new(alloc);
    'counts: for index in 0..counts.len() {
        add_usual(counts, &mut totals, key_at(counts, index))?;
    }
    Ok(totals)
}
