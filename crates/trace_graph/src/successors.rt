ghost use Rattle.std.specs.Prelude.{◌≡◌, ◌^◌, ◌<◌, ◌≤◌, IfOk, length, take};
ghost use Rattle.trace_graph.specs.inner.Successors.{AreExclusive, AreKnown, AreLists};

use crate::pair_test::PairTest;
use std::alloc::{AllocError, Global};
use weighted_dag::NumberList;

/// Writes the later vertices whose names are mutually exclusive with that of this one to the front
/// of the list, and gives their number. Each later vertex is written, and counts where it is one of
/// them, so that the loop has no branch.
fn write_exclusive<P: PairTest>(pairs: P, names: &[u32], vertex: usize, found: &mut [u32]) -> usize
    requires names { AreKnown (P.model pairs) names.now }
    requires few { length names.now < 2 ^ 32 }
    requires vertex { vertex < length names.now }
    requires room { length found.old ≡ length names.now }
    ensures room { length found.new ≡ length names.now }
    ensures count { result ≤ length names.now }
    ensures exclusive { AreExclusive (P.model pairs) names.now vertex (length names.now)
        (take result found.new) }
{
    let name = names[vertex];
    let mut count = 0;
    for later in vertex + 1..names.len() {
        found[count] = later as u32;
        count += usize::from(pairs.exclusive(name, names[later]));
    }
    count
}

/// Lists the successors of each vertex, each list with its exact room.
pub(crate) fn list_successors<P: PairTest>(
    alloc: Global,
    pairs: P,
    names: &[u32],
) -> Result<Vec<NumberList>, AllocError>
    requires few { length names.now < 2 ^ 32 }
    requires names { AreKnown (P.model pairs) names.now }
    ensures { IfOk result
        (λ lists. AreLists (P.model pairs) names.now (length names.now) lists.items) }
{
    let mut lists = Vec::with_capacity(alloc, names.len())?;
    let mut found = vec![in alloc; 0u32; names.len()]?;
    for vertex in 0..names.len() {
        let count = write_exclusive(pairs, names, vertex, &mut found);
        lists.push(NumberList::of(Vec::from_slice(alloc, &found[..count])?))?;
    }
    Ok(lists)
}
