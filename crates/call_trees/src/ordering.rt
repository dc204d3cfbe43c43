ghost use Rattle.std.specs.Prelude.{◌≡◌, length, IfOk};
ghost use Rattle.std.specs.List.{range_with_len};
ghost use Rattle.call_trees.specs.Orders.{AreInOrder};
ghost use Rattle.call_trees.specs.inner.IndexedKeys.{AreIndexed, indexes_of};

use std::alloc::{AllocError, Global};

/// Pairs each key with its index. The only error is out of memory.
fn pair_keys<K: Copy + Drop>(alloc: Global, keys: &[K]) -> Result<Vec<(K, usize)>, AllocError>
    ensures keys { IfOk result (λ pairs. AreIndexed keys.now pairs.items) }
    ensures indexes { IfOk result
        (λ pairs. indexes_of pairs.items ≡ range_with_len 0 (length keys.now)) }
{
    let mut pairs = Vec::with_capacity(alloc, keys.len())?;
    for at in 0..keys.len() {
        pairs.push((keys[at], at))?;
    }
    Ok(pairs)
}

/// Gives the indexes of pairs, in order. The only error is out of memory.
fn take_indexes<K: Copy + Drop>(
    alloc: Global,
    pairs: &[(K, usize)],
) -> Result<Vec<usize>, AllocError>
    ensures { IfOk result (λ order. order.items ≡ indexes_of pairs.now) }
{
    let mut order = Vec::with_capacity(alloc, pairs.len())?;
    for pair in pairs {
        order.push(pair.1)?;
    }
    Ok(order)
}

/// Gives the indexes of keys in rising order. The only error is out of memory.
pub fn order_by<K: Ord + Copy + Drop>(alloc: Global, keys: &[K]) -> Result<Vec<usize>, AllocError>
    ensures { IfOk result (λ order. AreInOrder K.cmp keys.now order.items) }
{
    let mut pairs = pair_keys(alloc, keys)?;
    pairs.sort_unstable();
    take_indexes(alloc, &pairs)
}
