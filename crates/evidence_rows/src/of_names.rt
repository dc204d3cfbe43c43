ghost use Rattle.std.specs.Prelude.{◌≤◌, ℕ, IfOk, List};
ghost use Rattle.evidence_rules.specs.EvidenceRows.{AreBySupport};
ghost use Rattle.name_rows.specs.Kinds.{traces_of};
ghost use Rattle.evidence_rows.specs.inner.Listed.{AreListed, AreOrdersBySupport};

use evidence_rules::{Between, PairRow};
use name_rows::{sort_rows, without_implied};
use std::alloc::{AllocError, Global};

/// Sorts listed rows of at most 512 names by their support.
pub(crate) fn sorted_rows(
    alloc: Global,
    rows: &[PairRow<Between>],
) -> Result<Vec<PairRow<Between>>, AllocError>
    requires { (names : ℕ) × (names ≤ 512) × AreListed names rows.now }
    ensures { IfOk result (λ sorted. AreBySupport traces_of rows.now sorted.items) }
{
    sort_rows(alloc, rows)
}

/// Sorts the listed orders of so many names by their support, without those that others imply where
/// this is asked.
pub(crate) fn order_rows(
    alloc: Global,
    reduced: bool,
    names: u32,
    rows: &[PairRow<Between>],
) -> Result<Vec<PairRow<Between>>, AllocError>
    requires few { names ≤ 512 }
    requires listed { AreListed names rows.now }
    ensures { IfOk result (λ sorted. AreOrdersBySupport reduced rows.now sorted.items) }
{
    if !reduced {
        return sort_rows(alloc, rows);
    }
    let left = without_implied(alloc, names, rows)?;
    sort_rows(alloc, &left)
}
