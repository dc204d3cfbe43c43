ghost use Rattle.std.specs.Prelude.{◌≡◌, ◌<◌, ◌==◌, ℕ, All, IfOk, List, filter, map};
ghost use Rattle.std.specs.List.{AllZip};
ghost use Rattle.alike_groups.specs.Groups.{groups_of};
ghost use Rattle.alike_groups.specs.declared.group.Group.{Group};
ghost use Rattle.segment_names.specs.Known.{same_name};
ghost use Rattle.trace_types.specs.Batch.{PlainTrace};
ghost use Rattle.trace_types.specs.Segments.{SegmentName};
ghost use Rattle.name_quality.specs.Names.{HasNames, all_names, first_of, names_alone};

use alike_groups::Group;
use std::alloc::{AllocError, Global};

/// Lists the groups of one element.
fn list_single(alloc: Global, groups: &[Group]) -> Result<Vec<Group>, AllocError>
    ensures { IfOk result (λ single. single.items ≡ filter (λ g. g.count == 1) groups.now) }
{
    let mut single = Vec::new(alloc);
    'groups: for group in groups {
        if group.count == 1 {
            single.push(*group)?;
        }
    }
    Ok(single)
}

/// Lists the groups of the names that one trace alone has, of the groups of all names. The only
/// error is out of memory.
pub fn list_alone(alloc: Global, groups: &[Group]) -> Result<Vec<Group>, AllocError>
    ensures alone { (traces : List PlainTrace) (named : List (List SegmentName))
        → AllZip HasNames traces named → groups.now ≡ groups_of same_name (all_names named)
        → IfOk result (λ alone. map (first_of (all_names named)) alone.items ≡ names_alone named) }
    ensures within { (count : ℕ) → All (λ (g : Group). g.first < count) groups.now
        → IfOk result (λ alone. All (λ (g : Group). g.first < count) alone.items) }
{
    list_single(alloc, groups)
}
