ghost use Rattle.std.specs.Prelude.{◌≡◌, ◌++◌, ℕ, [], length, map, List, OnOk, IfOk};
ghost use Rattle.std.specs.List.{AllZip};
ghost use Rattle.trace_types.specs.NameOrder.{name_cmp};
ghost use Rattle.digest_merging.specs.declared.places.Places.{Places};
ghost use Rattle.digest_facts.specs.Digests.{Rises, union};
ghost use Rattle.digest_merging.specs.inner.MergedRows.{ArePlaces, IsPlaceIn, mark_by, marks_at};
ghost use Rattle.digest_merging.specs.inner.MergedRows.{placed_rows};

use crate::marks::marks_by;
use crate::places::Places;
use digest_text::NameRow;
use std::alloc::{AllocError, Global};
use std::cmp::Ordering;
use trace_types::NameText;

/// Appends the names of rows, in order. The only error is out of memory.
fn copy_rest(alloc: Global, names: &mut Vec<NameText>, rows: &[NameRow]) -> Result<(), AllocError>
    ensures { OnOk result (names.new.items ≡ names.old.items ++ map (λ r. r.0) rows.now) }
{
    'rows: for row in rows {
        names.push(row.name.copy(alloc)?)?;
    }
    Ok(())
}

/// Makes the list of the names of both, each once, in their order. The only error is out of memory.
pub(crate) fn union_of_names(
    alloc: Global,
    first: &[NameRow],
    second: &[NameRow],
) -> Result<Vec<NameText>, AllocError>
    ensures { IfOk result (λ v. Rises name_cmp (map (λ r. r.0) first.now)
        → Rises name_cmp (map (λ r. r.0) second.now)
        → v.items ≡ union name_cmp (map (λ r. r.0) first.now) (map (λ r. r.0) second.now)) }
{
    let mut names = Vec::new(alloc);
    let mut i = 0usize;
    let mut j = 0usize;
    'both: while i < first.len() && j < second.len() {
        let left = &first[i];
        let right = &second[j];
        match left.name.cmp(&right.name) {
            Ordering::Less => {
                names.push(left.name.copy(alloc)?)?;
                i += 1;
            }
            Ordering::Greater => {
                names.push(right.name.copy(alloc)?)?;
                j += 1;
            }
            Ordering::Equal => {
                names.push(left.name.copy(alloc)?)?;
                i += 1;
                j += 1;
            }
        }
    }
    copy_rest(alloc, &mut names, &first[i..])?;
    copy_rest(alloc, &mut names, &second[j..])?;
    Ok(names)
}

/// Finds where a name stands in rows that rise.
fn place_in(rows: &[NameRow], name: &NameText) -> Option<usize>
    ensures { Rises name_cmp (map (λ r. r.0) rows.now)
        → IsPlaceIn (map (λ r. r.0) rows.now) name.now result }
{
    rows.binary_search_by(|row| row.name.cmp(name)).ok()
}

/// Finds where each name stands in rows of both that rise. The only error is out of memory.
fn places_in(
    alloc: Global,
    names: &[NameText],
    first: &[NameRow],
    second: &[NameRow],
) -> Result<Vec<Places>, AllocError>
    ensures count { IfOk result (λ v. length v.items ≡ length names.now) }
    ensures places { IfOk result (λ v. Rises name_cmp (map (λ r. r.0) first.now)
        → Rises name_cmp (map (λ r. r.0) second.now)
        → AllZip (ArePlaces (map (λ r. r.0) first.now) (map (λ r. r.0) second.now)) names.now
        v.items) }
{
    let mut places = Vec::with_capacity(alloc, names.len())?;
    'names: for name in names {
        places.push(Places {
            left: place_in(first, name),
            right: place_in(second, name),
        })?;
    }
    Ok(places)
}

/// Finds the marks of the row at a place; none where there is no row.
fn marks_at(rows: &[NameRow], place: Option<usize>) -> &[u8]
    ensures { result.now ≡ marks_at rows.now place }
{
    let Some(place) = place else {
        return &[];
    };
    match rows.get(place) {
        Some(row) => &row.marks,
        None => &[],
    }
}

/// Makes the marks of a name, by its places and those of the names before it. The only error is out
/// of memory.
fn marks_of(
    alloc: Global,
    first: &[NameRow],
    second: &[NameRow],
    earlier: &[Places],
    at: Places,
) -> Result<Vec<u8>, AllocError>
    ensures { IfOk result (λ v.
        v.items ≡ map (λ q. mark_by first.now second.now q at) earlier.now) }
{
    let left = marks_at(first, at.left);
    let right = marks_at(second, at.right);
    marks_by(alloc, left, right, earlier)
}

/// Makes the row of each name, by their places. The only error is out of memory.
fn rows_by(
    alloc: Global,
    names: Vec<NameText>,
    places: &[Places],
    first: &[NameRow],
    second: &[NameRow],
) -> Result<Vec<NameRow>, AllocError>
    requires { length places.now ≡ length names.items }
    ensures { IfOk result (λ v.
        v.items ≡ placed_rows (mark_by first.now second.now) [] names.items places.now) }
{
    let mut rows = Vec::with_capacity(alloc, names.len())?;
    let mut k = 0usize;
    'rows: for name in names {
        let marks = marks_of(alloc, first, second, &places[..k], places[k])?;
        rows.push(NameRow { name, marks })?;
        k += 1;
    }
    Ok(rows)
}

/// Makes the rows of these names, which both have, with the marks of both. The only error is out of
/// memory.
pub(crate) fn merge_name_rows(
    alloc: Global,
    names: Vec<NameText>,
    first: &[NameRow],
    second: &[NameRow],
) -> Result<Vec<NameRow>, AllocError>
    ensures { IfOk result (λ v. (places : List Places) × (Rises name_cmp (map (λ r. r.0) first.now)
        → Rises name_cmp (map (λ r. r.0) second.now)
        → AllZip (ArePlaces (map (λ r. r.0) first.now) (map (λ r. r.0) second.now)) names.items places)
        × (v.items ≡ placed_rows (mark_by first.now second.now) [] names.items places)) }
{
    let places = places_in(alloc, &names, first, second)?;
    Ok(rows_by(alloc, names, &places, first, second)?)
}
