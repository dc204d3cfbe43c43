ghost use Rattle.std.specs.Prelude.{◌≡◌, ◌<◌, [], All, None, is_some, length, map, replicate};
ghost use Rattle.std.specs.Prelude.{reverse, IfOk};
ghost use Rattle.std.specs.List.{list_any};
ghost use Rattle.thread_steps.specs.Parts.{grouping_of};
ghost use Rattle.thread_steps.specs.inner.Gaps.{gap_of, gaps_over, group_of_part};
ghost use Rattle.thread_steps.specs.inner.Groupings.{IsGrouping};

use crate::Forking;
use crate::forking::{group_of, is_forked};
use crate::parts::Part;
use call_trees::find_ordinals;
use std::alloc::{AllocError, Global};

/// Gives the group of a part, if its calls are forked.
fn group_of_part(forking: Forking<'_>, part: Part) -> Option<usize>
    requires grouping { IsGrouping (grouping_of forking) }
    requires within { part.first < length forking.numbers.now }
    ensures { result ≡ group_of_part (grouping_of forking.entry) part }
{
    if is_forked(forking, part.first) {
        Some(group_of(forking, part.first))
    } else {
        None
    }
}

/// Gives the groups of parts, in order. The only error is out of memory.
fn groups_of_parts(
    alloc: Global,
    forking: Forking<'_>,
    parts: &[Part],
) -> Result<Vec<Option<usize>>, AllocError>
    requires grouping { IsGrouping (grouping_of forking) }
    requires within { All (λ p. p.first < length forking.numbers.now) parts.now }
    ensures { IfOk result (λ groups. groups.items
        ≡ map (group_of_part (grouping_of forking.entry)) parts.now) }
{
    let mut groups = Vec::with_capacity(alloc, parts.len())?;
    for part in parts {
        groups.push(group_of_part(forking, *part))?;
    }
    Ok(groups)
}

/// Lists groups from the last one on. The only error is out of memory.
fn reversed(alloc: Global, groups: &[Option<usize>]) -> Result<Vec<Option<usize>>, AllocError>
    ensures { IfOk result (λ reversed. reversed.items ≡ reverse groups.now) }
{
    groups.iter().rev().copied().collect(alloc)
}

/// Gives which of its group a part is, from 1, unless it is the last of it, or has none.
fn gap_of(group: Option<usize>, ordinal: usize, left: usize) -> Option<u64>
    ensures { result ≡ gap_of group ordinal left }
{
    match group {
        Some(_) => {
            if left == 1 {
                None
            } else {
                Some(ordinal as u64)
            }
        }
        None => None,
    }
}

/// Gives for each part which of its group it is, from 1, unless it is the last of it, or has none,
/// by the groups of parts. The only error is out of memory.
fn find_gaps(alloc: Global, groups: &[Option<usize>]) -> Result<Vec<Option<u64>>, AllocError>
    ensures { IfOk result (λ gaps. gaps.items ≡ gaps_over [] groups.now) }
{
    let ordinals = find_ordinals(alloc, groups)?;
    let rest = reversed(alloc, groups)?;
    let left = find_ordinals(alloc, &rest)?;
    let mut gaps = Vec::with_capacity(alloc, groups.len())?;
    for at in 0..groups.len() {
        gaps.push(gap_of(groups[at], ordinals[at], left[groups.len() - 1 - at]))?;
    }
    Ok(gaps)
}

/// Tells whether some part has a group.
fn has_group(groups: &[Option<usize>]) -> bool
    ensures { result ≡ list_any is_some groups.now }
{
    groups.iter().any(|group| group.is_some())
}

/// Gives no gap for each of so many parts. The only error is out of memory.
fn no_gaps(alloc: Global, count: usize) -> Result<Vec<Option<u64>>, AllocError>
    ensures { IfOk result (λ gaps. gaps.items ≡ replicate count None) }
{
    vec![in alloc; None; count]
}

/// Gives for each part which of its group it is, from 1, unless it is the last of it, or has none.
/// The only error is out of memory.
pub(crate) fn gaps_of_parts(
    alloc: Global,
    forking: Forking<'_>,
    parts: &[Part],
) -> Result<Vec<Option<u64>>, AllocError>
    requires grouping { IsGrouping (grouping_of forking) }
    requires within { All (λ p. p.first < length forking.numbers.now) parts.now }
    ensures { IfOk result (λ gaps. gaps.items
        ≡ gaps_over [] (map (group_of_part (grouping_of forking.entry)) parts.now)) }
{
    let groups = groups_of_parts(alloc, forking, parts)?;
    if has_group(&groups) {
        find_gaps(alloc, &groups)
    } else {
        no_gaps(alloc, groups.len())
    }
}
