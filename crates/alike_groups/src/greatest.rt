ghost use Rattle.std.specs.Prelude.{◌≡◌, ◌<◌, ℕ, All, IfOk, IsPermutation, filter, nat_le};
ghost use Rattle.std.specs.List.Sorted.{IsSortedByKey};
ghost use Rattle.alike_groups.specs.Groups.{AreGreatest, pair_order, size_key};
ghost use Rattle.alike_groups.specs.declared.group.Group.{Group};

use crate::Group;
use std::alloc::{AllocError, Global};

/// Lists the groups of at least so many elements.
fn list_large(alloc: Global, groups: &[Group], least: usize) -> Result<Vec<Group>, AllocError>
    ensures { IfOk result (λ large. large.items ≡ filter (λ g. nat_le least g.count) groups.now) }
{
    let mut large = Vec::new(alloc);
    'groups: for group in groups {
        if least <= group.count {
            large.push(*group)?;
        }
    }
    Ok(large)
}

/// Gives the key by which groups are ordered: the greatest has the least, and of groups of one size
/// the first.
fn size_key(group: &Group) -> (usize, usize)
    ensures { result ≡ size_key group.now }
{
    (usize::MAX - group.count, group.first)
}

/// Brings groups into order, the greatest first.
fn order_groups(groups: &mut Vec<Group>)
    ensures same { IsPermutation groups.old.items groups.new.items }
    ensures order { IsSortedByKey size_key pair_order groups.new.items }
{
    groups.sort_unstable_by_key(size_key);
}

/// Lists the groups of at least so many elements, the greatest first and those of one size as the
/// first of each stand, and of these at most so many. The only error is out of memory.
pub fn greatest_groups(
    alloc: Global,
    groups: &[Group],
    least: usize,
    most: usize,
) -> Result<Vec<Group>, AllocError>
    ensures greatest { IfOk result (λ told. AreGreatest least most groups.now told.items) }
    ensures within { (count : ℕ) → All (λ (g : Group). g.first < count) groups.now
        → IfOk result (λ told. All (λ (g : Group). g.first < count) told.items) }
{
    let mut large = list_large(alloc, groups, least)?;
    order_groups(&mut large);
    large.truncate(most);
    Ok(large)
}
