ghost use Rattle.std.specs.Prelude.{◌≡◌, ◌<◌, ◌^◌, ℕ, All, IfOk, length, map};
ghost use Rattle.evidence_rules.specs.EvidenceRows.{AreBySupport};
ghost use Rattle.evidence_rules.specs.declared.sharing.Sharing.{Sharing};
ghost use Rattle.evidence_rules.specs.declared.pair_row.PairRow.{PairRow};
ghost use Rattle.task_rows.specs.Kinds.{traces_of};
ghost use Rattle.task_rows.specs.inner.Sorting.{IsPicked};

use evidence_rules::{PairRow, Sharing};
use std::alloc::{AllocError, Global};
use support_order::order_by_support;

/// Lists how many traces support each row.
fn supports_of(alloc: Global, rows: &[PairRow<Sharing>]) -> Result<Vec<u32>, AllocError>
    ensures { IfOk result (λ supports. supports.items
        ≡ map (λ (row : PairRow Sharing). traces_of row.figures) rows.now) }
{
    let mut supports = Vec::with_capacity(alloc, rows.len())?;
    'rows: for row in rows {
        supports.push(row.figures.traces)?;
    }
    Ok(supports)
}

/// Lists the rows that stand at the places of an order.
fn pick(
    alloc: Global,
    rows: &[PairRow<Sharing>],
    order: &[(u32, u32)],
) -> Result<Vec<PairRow<Sharing>>, AllocError>
    requires { All (λ (x : ℕ × ℕ). x.1 < length rows.now) order.now }
    ensures { IfOk result (λ picked. IsPicked rows.now order.now picked.items) }
{
    let mut picked = Vec::with_capacity(alloc, order.len())?;
    'order: for at in 0..order.len() {
        picked.push(rows[order[at].1 as usize])?;
    }
    Ok(picked)
}

/// Lists rows in the order of their support, the most supported first; rows of equal support stand
/// as before. The only error is out of memory.
pub fn sort_rows(
    alloc: Global,
    rows: &[PairRow<Sharing>],
) -> Result<Vec<PairRow<Sharing>>, AllocError>
    requires { length rows.now < 2 ^ 32 }
    ensures { IfOk result (λ sorted. AreBySupport traces_of rows.now sorted.items) }
{
    let supports = supports_of(alloc, rows)?;
    let order = order_by_support(alloc, &supports)?;
    pick(alloc, rows, &order)
}
