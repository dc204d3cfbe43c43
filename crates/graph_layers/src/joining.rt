ghost use Rattle.std.specs.Prelude.{◌≡◌, ◌*◌, ◌<◌, ◌≤◌, IfOk, OnOk, length};
ghost use Rattle.implied_pairs.specs.Pairs.{AreBelow};
ghost use Rattle.graph_layers.specs.Joined.{AreJoined};
ghost use Rattle.graph_layers.specs.inner.Chains.{HasJoined, IsMatrix, is_joined};

use crate::reaching::is_pair;
use std::alloc::{AllocError, Global};

/// Tells whether a chain leads from the one box to the other, and no relation does.
fn is_joined(
    count: usize,
    pairs: &[(u32, u32)],
    matrix: &[bool],
    first: usize,
    second: usize,
) -> bool
    requires few { count ≤ 128 }
    requires size { length matrix.now ≡ count * count }
    requires first { first < count }
    requires second { second < count }
    ensures { result ≡ is_joined count pairs.now matrix.now first second }
{
    first != second && matrix[first * count + second] && !is_pair(pairs, first, second)
}

/// Appends the pairs that begin with this box.
fn push_joined(
    joined: &mut Vec<(u32, u32)>,
    count: usize,
    pairs: &[(u32, u32)],
    matrix: &[bool],
    first: usize,
) -> Result<(), AllocError>
    requires few { count ≤ 128 }
    requires size { length matrix.now ≡ count * count }
    requires first { first < count }
    requires so_far { HasJoined count pairs.now matrix.now first 0 joined.old.items }
    ensures { OnOk result (HasJoined count pairs.now matrix.now first count joined.new.items) }
{
    'columns: for second in 0..count {
        if is_joined(count, pairs, matrix, first, second) {
            joined.push((first as u32, second as u32))?;
        }
    }
    Ok(())
}

/// Lists the pairs that a chain of relations joins, and no relation, by the first and then by the
/// second. The only error is out of memory.
pub(crate) fn joined_pairs(
    alloc: Global,
    count: usize,
    pairs: &[(u32, u32)],
    matrix: &[bool],
) -> Result<Vec<(u32, u32)>, AllocError>
    requires few { count ≤ 128 }
    requires below { AreBelow count pairs.now }
    requires matrix { IsMatrix count pairs.now matrix.now }
    ensures { IfOk result (λ joined. AreJoined pairs.now joined.items) }
{
    let mut joined = Vec::new(alloc);
    'rows: for first in 0..count {
        push_joined(&mut joined, count, pairs, matrix, first)?;
    }
    Ok(joined)
}
