ghost use Rattle.std.specs.Prelude.{◌≡◌, ◌≢◌, ◌+◌, ◌-◌, ◌<◌, ◌≤◌, length, IfOk, None, Some};
ghost use Rattle.std.specs.Prelude.{replicate, slice_set, count_by, is_some, IsOk, OnOk, OnErr};
ghost use Rattle.day_partitions.specs.inner.Trees.{AreCommon, IsMetLeaf, tree, widened_tree};
ghost use Rattle.day_partitions.specs.inner.Trees.{with_spare_rows, IsMissing, IsThere};

use crate::climb::climb;
use crate::making::{missing_leaves, take_nodes};
use row_pool::{RowId, RowPool, Steps};
use std::alloc::{AllocError, Global};
use std::marker::Model;
use std::mem;
use std::sync::ledger::Ledger;

/// Up to 64 leaves, each a row of words, and the meets of ever larger parts of them up to the root.
/// A missing leaf stands for full words.
#[derive(Drop)]
pub(crate) struct Tree {
    pool: RowPool,
    nodes: Vec<RowId>,
    leaves: Vec<Option<RowId>>,
}

impl Model for Tree {
    ghost use Rattle.day_partitions.specs.inner.Trees.{TreeState};
    ghost use Rattle.day_partitions.specs.inner.Nodes.{tree_of, IsTree};

    ghost Value = { TreeState };

    ghost view = { λ a. tree_of a.pool a.leaves.items };

    ghost invariant = { λ a. IsTree a.pool a.nodes.items a.leaves.items };
}

impl Tree {
    /// Makes a tree of rows of so many words, with all leaves missing and no row spare.
    pub(crate) fn new(alloc: Global, width: u32) -> Result<Tree, AllocError>
        requires { 1 ≤ width }
        ensures { IfOk result (λ t. t ≡ tree width (replicate 64 None) 0) }
    {
        let mut pool = RowPool::new(alloc, width);
        pool.reserve(66)?;
        let nodes = take_nodes(alloc, &mut pool)?;
        let leaves = missing_leaves(alloc)?;
        Ok(Tree {
            pool,
            nodes,
            leaves,
        })
    }

    /// The number of rows that leaves can take without memory.
    pub(crate) fn spare(&self) -> u32
        ensures { result ≡ self.now.spare }
    {
        self.pool.spare()
    }

    /// Lends what all leaves have in common.
    pub(crate) fn root(&self) -> &[u64]
        ensures common { AreCommon self.now.leaves result.now }
        ensures width { length result.now ≡ self.now.width }
    {
        self.pool.row(&self.nodes[1])
    }

    /// The index of the first missing leaf.
    pub(crate) fn missing(&self) -> usize
        requires { count_by is_some self.now.leaves < 64 }
        ensures slot { result < 64 }
        ensures missing { IsMissing self.now.leaves result }
    {
        'leaves: for slot in 0..64usize {
            if self.leaves[slot].is_none() {
                return slot;
            }
        }
        unreachable!()
    }

    /// Gives a missing leaf a spare row with these words.
    pub(crate) fn put<L: Ledger>(&mut self, slot: usize, words: &[u64], steps: &mut Steps<L>)
        requires slot { slot < 64 }
        requires missing { IsMissing self.old.leaves slot }
        requires spare { self.old.spare ≢ 0 }
        requires width { length words.now ≡ self.old.width }
        ensures put { self.new ≡ tree self.old.width
            (slice_set self.old.leaves slot (Some words.now)) (self.old.spare - 1) }
        ensures steps { steps.new ≡ steps.old + 6 }
    {
        let Some(id) = self.pool.take() else {
            unreachable!();
        };
        self.pool.write(&id, words);
        self.leaves[slot] = Some(id);
        climb(&mut self.pool, &self.nodes, &self.leaves, slot, steps);
    }

    /// Meets a leaf with these words.
    pub(crate) fn meet<L: Ledger>(&mut self, slot: usize, words: &[u64], steps: &mut Steps<L>)
        requires slot { IsThere self.old.leaves slot }
        requires width { length words.now ≡ self.old.width }
        ensures met { IsMetLeaf self.old slot words.now self.new }
        ensures steps { steps.new ≡ steps.old + 7 }
    {
        let Some(leaf) = self.leaves[slot].take() else {
            unreachable!();
        };
        self.pool.write(&self.nodes[0], words);
        self.pool
            .meet_into(&self.nodes[64], &leaf, &self.nodes[0], steps);
        let met = mem::replace(&mut self.nodes[64], leaf);
        self.leaves[slot] = Some(met);
        climb(&mut self.pool, &self.nodes, &self.leaves, slot, steps);
    }

    /// Gives up a leaf, whose row is spare then.
    pub(crate) fn remove<L: Ledger>(&mut self, slot: usize, steps: &mut Steps<L>)
        requires slot { IsThere self.old.leaves slot }
        ensures removed { self.new ≡ tree self.old.width
            (slice_set self.old.leaves slot None) (self.old.spare + 1) }
        ensures steps { steps.new ≡ steps.old + 6 }
    {
        let Some(leaf) = self.leaves[slot].take() else {
            unreachable!();
        };
        self.pool.give_back(leaf);
        climb(&mut self.pool, &self.nodes, &self.leaves, slot, steps);
    }

    /// Makes so many rows spare, if fewer are. The only error is that memory ran out.
    pub(crate) fn reserve(&mut self, rows: u32) -> Result<(), AllocError>
        requires { rows ≤ 64 }
        ensures ok { OnOk result (self.new ≡ with_spare_rows self.old rows) }
        ensures err { OnErr result (self.new ≡ self.old) }
        ensures sure { rows ≤ self.old.spare → IsOk result }
    {
        self.pool.reserve(rows)
    }

    /// Makes all rows wider, with full words after their own. The only error is that memory ran
    /// out, and there is none where the width stays.
    pub(crate) fn widen(&mut self, width: u32) -> Result<(), AllocError>
        requires { self.old.width ≤ width }
        ensures ok { OnOk result (self.new
            ≡ widened_tree self.old width (width - self.old.width)) }
        ensures err { OnErr result (self.new ≡ self.old) }
        ensures sure { width ≡ self.old.width → IsOk result }
    {
        self.pool.new_width(width)
    }
}
