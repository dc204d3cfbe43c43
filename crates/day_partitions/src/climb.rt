//! The path from a leaf of a tree to its root.
ghost use Rattle.std.specs.Prelude.{◌≡◌, ◌+◌, ◌/◌, ◌<◌, length};
ghost use Rattle.day_partitions.specs.inner.Nodes.{id_at, AreRows, AreMetBut, ChangesInner};
ghost use Rattle.day_partitions.specs.inner.Nodes.{IsTreeBut};

use row_pool::{RowId, RowPool, Steps};
use std::sync::ledger::Ledger;

/// The row at a place: 1 to 63 for the inner ones, and from 64 on for the leaves, where the full
/// row stands for each that is missing.
fn node<'a>(nodes: &'a [RowId], leaves: &'a [Option<RowId>], place: usize) -> &'a RowId
    requires nodes { length nodes.now ≡ 66 }
    requires leaves { length leaves.now ≡ 64 }
    requires place { place < 128 }
    ensures { result.now ≡ id_at nodes.now leaves.now place }
{
    if place < 64 {
        return &nodes[place];
    }
    match &leaves[place - 64] {
        Some(leaf) => leaf,
        None => &nodes[65],
    }
}

/// Meets the inner rows above a leaf again, from the lowest to the root.
pub(crate) fn climb<L: Ledger>(
    pool: &mut RowPool,
    nodes: &[RowId],
    leaves: &[Option<RowId>],
    slot: usize,
    steps: &mut Steps<L>,
)
    requires slot { slot < 64 }
    requires tree { IsTreeBut pool.old nodes.now leaves.now ((64 + slot) / 2) }
    ensures rows { AreRows pool.new nodes.now leaves.now }
    ensures met { AreMetBut pool.new nodes.now leaves.now 0 }
    ensures others { ChangesInner pool.old nodes.now leaves.now pool.new }
    ensures steps { steps.new ≡ steps.old + 6 }
{
    let mut at = 64 + slot;
    'levels: for _ in 0..6usize {
        at /= 2;
        pool.meet_into(
            node(nodes, leaves, at),
            node(nodes, leaves, 2 * at),
            node(nodes, leaves, 2 * at + 1),
            steps,
        );
    }
}
