ghost use Rattle.std.specs.Prelude.{◌≡◌, ◌<◌, ◌≤◌, List, ℕ, length, map, max, min, slice_index, IfOk};
ghost use Rattle.std.specs.List.{range_with_len};
ghost use Rattle.linked_groups.specs.Groups.{AreLinksBelow, groups_after, groups_of, groups_with};
ghost use Rattle.linked_groups.specs.inner.Trees.{AreFalling, AreTrees};

use std::alloc::{AllocError, Global};

/// Finds the number that a group is named by, from one of its numbers, and shortens the way to it.
fn find_name(next: &mut [usize], number: usize) -> usize
    requires falls { AreFalling next.old }
    requires within { number < length next.old }
    ensures trees { (groups : List ℕ) → AreTrees next.old groups → AreTrees next.new groups }
    ensures falls { AreFalling next.new }
    ensures name { (groups : List ℕ) → AreTrees next.old groups → result ≡ slice_index groups number }
    ensures last { (groups : List ℕ) → AreTrees next.old groups → slice_index groups result ≡ result }
    ensures within { result < length next.new }
{
    let mut at = number;
    'down: while next[at] != at {
        let after = next[next[at]];
        next[at] = after;
        at = after;
    }
    at
}

/// Leads from the greater of two names to the less one.
fn join_names(next: &mut [usize], one: usize, other: usize)
    requires falls { AreFalling next.old }
    requires one { one < length next.old }
    requires other { other < length next.old }
    ensures falls { AreFalling next.new }
    ensures trees { (groups : List ℕ) → AreTrees next.old groups → slice_index groups one ≡ one
        → slice_index groups other ≡ other → AreTrees next.new (groups_with groups one other) }
{
    if one < other {
        next[other] = one;
    } else {
        next[one] = other;
    }
}

/// Joins the groups of two numbers.
fn join_groups(next: &mut [usize], link: (usize, usize))
    requires falls { AreFalling next.old }
    requires one { link.0 < length next.old }
    requires other { link.1 < length next.old }
    ensures falls { AreFalling next.new }
    ensures trees { (groups : List ℕ) → AreTrees next.old groups
        → AreTrees next.new (groups_after groups link) }
{
    let one = find_name(next, link.0);
    let other = find_name(next, link.1);
    join_names(next, one, other);
}

/// Joins the groups of the numbers that links lead to, one link after another.
fn join_all(next: &mut [usize], links: &[(usize, usize)])
    requires first { next.old ≡ range_with_len 0 (length next.old) }
    requires links { AreLinksBelow (length next.old) links.now }
    ensures { AreTrees next.new (groups_of (length next.old) links.now) }
{
    for at in 0..links.len() {
        join_groups(next, links[at]);
    }
}

/// Gives the numbers below a bound, in order.
fn all_numbers(alloc: Global, count: usize) -> Result<Vec<usize>, AllocError>
    ensures { IfOk result (λ numbers. numbers.items ≡ range_with_len 0 count) }
{
    let mut numbers = Vec::with_capacity(alloc, count)?;
    for at in 0..count {
        numbers.push(at)?;
    }
    Ok(numbers)
}

/// Gives the group of each number.
fn name_all(alloc: Global, next: &mut [usize]) -> Result<Vec<usize>, AllocError>
    requires { AreFalling next.old }
    ensures { IfOk result (λ names. (groups : List ℕ) → AreTrees next.old groups → names.items ≡ groups) }
{
    let mut names = Vec::with_capacity(alloc, next.len())?;
    for at in 0..next.len() {
        names.push(find_name(next, at))?;
    }
    Ok(names)
}

/// Gives the group of each number, which is at first a group of its own, after all links.
fn group_all(
    alloc: Global,
    next: &mut [usize],
    links: &[(usize, usize)],
) -> Result<Vec<usize>, AllocError>
    requires first { next.old ≡ range_with_len 0 (length next.old) }
    requires links { AreLinksBelow (length next.old) links.now }
    ensures { IfOk result (λ groups. groups.items ≡ groups_of (length next.old) links.now) }
{
    join_all(next, links);
    name_all(alloc, next)
}

/// Gives for each number below a bound the least one of its group, where links join groups. The only
/// error is out of memory.
pub fn find_groups(
    alloc: Global,
    count: usize,
    links: &[(usize, usize)],
) -> Result<Vec<usize>, AllocError>
    requires { AreLinksBelow count links.now }
    ensures { IfOk result (λ groups. groups.items ≡ groups_of count links.now) }
{
    let mut next = all_numbers(alloc, count)?;
    group_all(alloc, &mut next, links)
}
