ghost use Rattle.std.specs.Prelude.{◌≡◌, ◌<◌, ◌≤◌, All, Bool, IfOk, length, map};
ghost use Rattle.evidence_rules.specs.EvidenceRows.{AreReduced, places_of};
ghost use Rattle.evidence_rules.specs.declared.between.Between.{Between};
ghost use Rattle.evidence_rules.specs.declared.pair_row.PairRow.{PairRow};
ghost use Rattle.name_rows.specs.inner.Reducing.{unmarked};

use evidence_rules::{Between, PairRow};
use implied_pairs::implied_pairs;
use std::alloc::{AllocError, Global};

/// Lists the places of each row.
fn places_in(alloc: Global, rows: &[PairRow<Between>]) -> Result<Vec<(u32, u32)>, AllocError>
    ensures { IfOk result (λ pairs. pairs.items ≡ map places_of rows.now) }
{
    let mut pairs = Vec::with_capacity(alloc, rows.len())?;
    'rows: for row in rows {
        pairs.push((row.first, row.second))?;
    }
    Ok(pairs)
}

/// Lists the rows that are not marked.
fn unmarked_rows(
    alloc: Global,
    rows: &[PairRow<Between>],
    marks: &[bool],
) -> Result<Vec<PairRow<Between>>, AllocError>
    requires { length marks.now ≡ length rows.now }
    ensures { IfOk result (λ left. left.items ≡ unmarked rows.now marks.now) }
{
    let mut left = Vec::new(alloc);
    'rows: for at in 0..rows.len() {
        if !marks[at] {
            left.push(rows[at])?;
        }
    }
    Ok(left)
}

/// Lists the rows without those that are implied by others. Places are below a count, at most 512.
/// The only error is out of memory.
pub fn without_implied(
    alloc: Global,
    count: u32,
    rows: &[PairRow<Between>],
) -> Result<Vec<PairRow<Between>>, AllocError>
    requires few { count ≤ 512 }
    requires below { All (λ (row : PairRow Between). (row.first < count) × (row.second < count))
        rows.now }
    ensures { IfOk result (λ left. AreReduced rows.now left.items) }
{
    let pairs = places_in(alloc, rows)?;
    let marks = implied_pairs(alloc, count, &pairs)?;
    unmarked_rows(alloc, rows, &marks)
}
