//! The rows and the leaves of a new tree.
ghost use Rattle.std.specs.Prelude.{◌≡◌, replicate, None, IfOk};
ghost use Rattle.std.specs.FinMap as map;
ghost use Rattle.row_pool.specs.Pools.{pool};
ghost use Rattle.day_partitions.specs.inner.Nodes.{AreMade};

use row_pool::{RowId, RowPool};
use std::alloc::{AllocError, Global};

/// Takes the rows that a tree has besides its leaves: 63 inner ones, one that stays full and two to
/// work in.
pub(crate) fn take_nodes(alloc: Global, rows: &mut RowPool) -> Result<Vec<RowId>, AllocError>
    requires { rows.old ≡ pool rows.old.width map.empty 66 }
    ensures made { IfOk result (λ nodes. AreMade rows.old.width rows.new nodes.items) }
{
    let mut nodes = Vec::with_capacity(alloc, 66)?;
    'rows: for _ in 0..66usize {
        let Some(id) = rows.take() else {
            unreachable!();
        };
        nodes.push_reserved(id);
    }
    Ok(nodes)
}

/// Makes 64 leaves that are missing.
pub(crate) fn missing_leaves(alloc: Global) -> Result<Vec<Option<RowId>>, AllocError>
    ensures { IfOk result (λ leaves. leaves.items ≡ replicate 64 None) }
{
    let mut leaves = Vec::with_capacity(alloc, 64)?;
    'leaves: for _ in 0..64usize {
        leaves.push_reserved(None);
    }
    Ok(leaves)
}
