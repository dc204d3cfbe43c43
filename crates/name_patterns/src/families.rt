ghost use Rattle.std.specs.Prelude.{◌≡◌, ◌<◌, ℕ, All, IfOk, List, length, map};
ghost use Rattle.std.specs.Borrow.{Bor};
ghost use Rattle.std.specs.Str.{bytes_eq};
ghost use Rattle.alike_groups.specs.Groups.{groups_of};
ghost use Rattle.alike_groups.specs.declared.group.Group.{Group};
ghost use Rattle.name_patterns.specs.Families.{AreFamilies};
ghost use Rattle.name_patterns.specs.inner.Lists.{bytes_in};

use alike_groups::{Group, greatest_groups, group_alike};
use std::alloc::{AllocError, Global};

/// The fewest texts of a family that is told.
const FEWEST: usize = 10;

/// The most families that are told.
const MOST: usize = 100;

/// Lends each of some lists of bytes.
fn lend_each<'a>(alloc: Global, patterns: &'a [Vec<u8>]) -> Result<Vec<&'a [u8]>, AllocError>
    ensures { IfOk result (λ lent.
        map (λ (b : Bor (List ℕ)). b.now) lent.items ≡ map bytes_in patterns.now) }
{
    let mut lent = Vec::with_capacity(alloc, patterns.len())?;
    'patterns: for index in 0..patterns.len() {
        lent.push(patterns[index].as_slice())?;
    }
    Ok(lent)
}

/// Groups equal patterns.
fn group_patterns(alloc: Global, patterns: &[Vec<u8>]) -> Result<Vec<Group>, AllocError>
    ensures groups { IfOk result
        (λ groups. groups.items ≡ groups_of bytes_eq (map bytes_in patterns.now)) }
    ensures within { IfOk result (λ groups.
        All (λ (g : Group). g.first < length patterns.now) groups.items) }
{
    let lent = lend_each(alloc, patterns)?;
    group_alike(alloc, &lent)
}

/// Finds the families of texts with these patterns: those of ten or more, the greatest first and of
/// those of one size the one that is seen first, at most a hundred. The only error is out of memory.
pub fn find_families(alloc: Global, patterns: &[Vec<u8>]) -> Result<Vec<Group>, AllocError>
    ensures families { IfOk result
        (λ families. AreFamilies (map bytes_in patterns.now) families.items) }
    ensures within { IfOk result (λ families.
        All (λ (g : Group). g.first < length patterns.now) families.items) }
{
    let groups = group_patterns(alloc, patterns)?;
    greatest_groups(alloc, &groups, FEWEST, MOST)
}
