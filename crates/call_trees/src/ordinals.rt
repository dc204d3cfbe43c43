ghost use Rattle.std.specs.Prelude.{◌≡◌, ◌<◌, length, IfOk, unwrap_or};
ghost use Rattle.indexmap.specs.IndexMap.{get};
ghost use Rattle.call_trees.specs.Ordinals.{ordinals_of};

use indexmap::IndexMap;
use std::alloc::{AllocError, Global};
use std::hash::Hash;

/// Gives how often a key was counted.
fn count_of<K: Eq + Hash>(counts: &IndexMap<K, usize>, key: &K) -> usize
    ensures { result ≡ unwrap_or (get K.eq counts.now key.now) 0 }
{
    match counts.get(key) {
        Some(count) => *count,
        None => 0,
    }
}

/// Gives which of those equal to it each key is, from 1. The only error is out of memory.
pub fn find_ordinals<K: Eq + Hash + Copy + Drop>(
    alloc: Global,
    keys: &[K],
) -> Result<Vec<usize>, AllocError>
    requires { length keys.now < usize.MAX }
    ensures { IfOk result (λ ordinals. ordinals.items ≡ ordinals_of K.eq keys.now) }
{
    let mut counts = IndexMap::new(alloc);
    let mut ordinals = Vec::with_capacity(alloc, keys.len())?;
    for key in keys {
        let ordinal = count_of(&counts, key) + 1;
        counts.insert(*key, ordinal)?;
        ordinals.push(ordinal)?;
    }
    Ok(ordinals)
}
