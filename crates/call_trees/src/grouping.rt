ghost use Rattle.std.specs.Prelude.{◌≡◌, ◌<◌, ℕ, All, None, Some, [], length, replicate, slice_index_or, IfOk};
ghost use Rattle.call_trees.specs.Below.{below_all};

use crate::NumberList;
use std::alloc::{AllocError, Global};

/// Makes so many empty lists. The only error is out of memory.
fn empty_lists(alloc: Global, count: usize) -> Result<Vec<NumberList>, AllocError>
    ensures { IfOk result (λ lists. lists.items ≡ replicate count []) }
{
    let mut lists = Vec::with_capacity(alloc, count)?;
    for at in 0..count {
        lists.push(NumberList::new(alloc))?;
    }
    Ok(lists)
}

/// Gives for each number those below it, in this order, by the number above each. The only error is
/// out of memory.
pub fn group_below(
    alloc: Global,
    above: &[Option<usize>],
    order: &[usize],
) -> Result<Vec<NumberList>, AllocError>
    requires within { All (λ j. j < length above.now) order.now }
    requires above { (j n : ℕ) → slice_index_or above.now j None ≡ Some n → n < length above.now }
    ensures { IfOk result (λ lists. lists.items ≡ below_all above.now order.now) }
{
    let mut lists = empty_lists(alloc, above.len())?;
    for number in order {
        if let Some(one) = above[*number] {
            lists[one].push(*number)?;
        }
    }
    Ok(lists)
}
