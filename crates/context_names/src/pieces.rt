ghost use Rattle.std.specs.Prelude.{◌≡◌, ◌<◌, ◌+◌, ◌++◌, ◌∷◌, [], All, List, ℕ, false, true, length, map};
ghost use Rattle.std.specs.Prelude.{if◌then◌else◌, nat_eq, slice_index, slice_index_or, slice_set};
ghost use Rattle.std.specs.Prelude.{replicate, IfOk, IfSome, OnOk};
ghost use Rattle.trace_types.specs.Firsts.{firsts_of};
ghost use Rattle.call_trees.specs.Ordinals.{ordinals_of};
ghost use Rattle.call_contexts.specs.ContextOrder.{AreOrdered};
ghost use Rattle.call_contexts.specs.Contexts.{Frame, HaveAbove, frames_of};
ghost use Rattle.context_names.specs.Bases.{frame_of_number};
ghost use Rattle.context_names.specs.Pieces.{AreNumbered, are_of_one_group, forked_among};
ghost use Rattle.context_names.specs.Pieces.{forked_in_order, heads, heads_by_group};
ghost use Rattle.context_names.specs.Pieces.{numbers_by_group, thread_above};
ghost use Rattle.context_names.specs.Scattering.{scattered};
ghost use Rattle.context_names.specs.inner.Groups.{AreBelow};

use crate::scattering::scatter;
use call_contexts::{Context, ContextOrder};
use call_trees::{NumberList, find_ordinals};
use std::alloc::{AllocError, Global};

/// The groups of contexts that are forked together, by their numbers.
#[derive(Debug, Drop)]
pub struct GroupNumbers {
    /// The first context of each group.
    pub heads: Vec<usize>,
    /// The number of each group among those of its thread, from 2.
    pub numbers: Vec<usize>,
}

/// Appends those of these contexts that are forked.
fn push_forked(list: &mut Vec<usize>, numbers: &[usize], forked: &[bool]) -> Result<(), AllocError>
    requires { All (λ y. y < length forked.now) numbers.now }
    ensures { OnOk result
        (list.new.items ≡ list.old.items ++ forked_among forked.now numbers.now) }
{
    for number in numbers {
        if forked[*number] {
            list.push(*number)?;
        }
    }
    Ok(())
}

/// Lists forked contexts, by the order of the contexts above them.
fn list_forked(
    alloc: Global,
    order: &[usize],
    below: &[NumberList],
    forked: &[bool],
) -> Result<Vec<usize>, AllocError>
    requires within { All (λ x. x < length below.now) order.now }
    requires below { AreBelow (length forked.now) below.now }
    ensures list { IfOk result (λ list. (contexts : List Frame) (threads groups : List ℕ)
        → list.items ≡ forked_in_order contexts order.now below.now threads forked.now groups) }
    ensures within { IfOk result (λ list. All (λ y. y < length forked.now) list.items) }
{
    let mut list = Vec::new(alloc);
    for number in order {
        push_forked(&mut list, below[*number].items(), forked)?;
    }
    Ok(list)
}

/// Appends a context, unless its group is seen, which it then is.
fn push_new(
    first: &mut Vec<usize>,
    is_seen: &mut [bool],
    number: usize,
    group: usize,
) -> Result<(), AllocError>
    requires { group < length is_seen.old }
    ensures first { OnOk result (first.new.items
        ≡ (if slice_index_or is_seen.old group false then first.old.items
        else first.old.items ++ number ∷ [])) }
    ensures seen { OnOk result (is_seen.new ≡ slice_set is_seen.old group true) }
{
    if !is_seen[group] {
        first.push(number)?;
    }
    is_seen[group] = true;
    Ok(())
}

/// Appends the first of these contexts of each group, in order, where no group is seen.
fn push_first(
    first: &mut Vec<usize>,
    is_seen: &mut [bool],
    list: &[usize],
    groups: &[usize],
) -> Result<(), AllocError>
    requires within { All (λ x. x < length groups.now) list.now }
    requires groups { All (λ g. g < length groups.now) groups.now }
    requires empty { first.old.items ≡ [] }
    requires none { is_seen.old ≡ replicate (length groups.now) false }
    ensures { OnOk result
        (first.new.items ≡ firsts_of (are_of_one_group groups.now) list.now) }
{
    for number in list {
        push_new(first, is_seen, *number, groups[*number])?;
    }
    Ok(())
}

/// Gives the first of these contexts of each group, in order.
fn first_of_groups(
    alloc: Global,
    list: &[usize],
    groups: &[usize],
) -> Result<Vec<usize>, AllocError>
    requires within { All (λ x. x < length groups.now) list.now }
    requires groups { All (λ g. g < length groups.now) groups.now }
    ensures { IfOk result
        (λ first. first.items ≡ firsts_of (are_of_one_group groups.now) list.now) }
{
    let mut is_seen = vec![in alloc; false; groups.len()]?;
    let mut first = Vec::new(alloc);
    push_first(&mut first, &mut is_seen, list, groups)?;
    Ok(first)
}

/// Gives the first context of each group, in order.
fn find_heads(
    alloc: Global,
    order: &ContextOrder,
    forked: &[bool],
    groups: &[usize],
) -> Result<Vec<usize>, AllocError>
    requires within { All (λ x. x < length order.now.below.items) order.now.order.items }
    requires below { AreBelow (length forked.now) order.now.below.items }
    requires same { length forked.now ≡ length groups.now }
    requires groups { All (λ g. g < length groups.now) groups.now }
    ensures heads { IfOk result (λ found. (contexts : List Frame) (threads : List ℕ)
        → found.items ≡ heads contexts order.now.order.items order.now.below.items threads
        forked.now groups.now) }
    ensures within { IfOk result (λ found. All (λ x. x < length groups.now) found.items) }
{
    let list = list_forked(alloc, &order.order, &order.below, forked)?;
    first_of_groups(alloc, &list, groups)
}

/// Gives the thread above a context.
fn thread_above(threads: &[usize], above: Option<usize>, number: usize) -> usize
    requires { IfSome above (λ a. a < length threads.now) }
    ensures { result ≡ thread_above threads.now above number }
{
    match above {
        Some(above) => threads[above],
        None => number,
    }
}

/// Gives the threads above these contexts.
fn threads_above(
    alloc: Global,
    list: &[usize],
    contexts: &[Context<'_>],
    threads: &[usize],
) -> Result<Vec<usize>, AllocError>
    requires within { All (λ x. x < length contexts.now) list.now }
    requires above { HaveAbove (frames_of contexts.now) }
    requires same { length threads.now ≡ length contexts.now }
    ensures { IfOk result (λ above. above.items
        ≡ map (λ x. thread_above threads.now
        (frame_of_number (frames_of contexts.now) x).above x) list.now) }
{
    let mut above = Vec::with_capacity(alloc, list.len())?;
    for number in list {
        above.push(thread_above(threads, contexts[*number].above, *number))?;
    }
    Ok(above)
}

/// Gives the groups of these contexts.
fn groups_at(alloc: Global, list: &[usize], groups: &[usize]) -> Result<Vec<usize>, AllocError>
    requires { All (λ x. x < length groups.now) list.now }
    ensures { IfOk result (λ found. found.items ≡ map (slice_index groups.now) list.now) }
{
    let mut found = Vec::with_capacity(alloc, list.len())?;
    for number in list {
        found.push(groups[*number])?;
    }
    Ok(found)
}

/// Adds one to each number.
fn add_one(numbers: &mut [usize])
    requires { All (λ n. n < usize.MAX) numbers.old }
    ensures { numbers.new ≡ map (λ n. n + 1) numbers.old }
{
    for number in numbers.iter_mut() {
        *number += 1;
    }
}

/// Numbers the groups with these first contexts among those that their threads fork.
fn number_heads(
    alloc: Global,
    list: &[usize],
    contexts: &[Context<'_>],
    threads: &[usize],
) -> Result<Vec<usize>, AllocError>
    requires within { All (λ x. x < length contexts.now) list.now }
    requires above { HaveAbove (frames_of contexts.now) }
    requires same { length threads.now ≡ length contexts.now }
    ensures { IfOk result (λ numbers. numbers.items
        ≡ map (λ n. n + 1) (ordinals_of nat_eq (map (λ x. thread_above threads.now
        (frame_of_number (frames_of contexts.now) x).above x) list.now))) }
{
    let keys = threads_above(alloc, list, contexts, threads)?;
    let mut numbers = find_ordinals(alloc, &keys)?;
    add_one(&mut numbers);
    Ok(numbers)
}

/// Gives first contexts and numbers of groups by group.
fn place_groups(
    alloc: Global,
    first: &[usize],
    numbers: &[usize],
    groups: &[usize],
) -> Result<GroupNumbers, AllocError>
    requires within { All (λ x. x < length groups.now) first.now }
    requires groups { All (λ g. g < length groups.now) groups.now }
    requires same { length numbers.now ≡ length first.now }
    ensures heads { IfOk result (λ found. found.heads.items
        ≡ scattered (length groups.now) (map (slice_index groups.now) first.now) first.now) }
    ensures numbers { IfOk result (λ found. found.numbers.items
        ≡ scattered (length groups.now) (map (slice_index groups.now) first.now) numbers.now) }
{
    let places = groups_at(alloc, first, groups)?;
    let heads = scatter(alloc, &places, first, groups.len())?;
    let numbers = scatter(alloc, &places, numbers, groups.len())?;
    Ok(GroupNumbers { heads, numbers })
}

/// Numbers the groups that each thread forks, from 2. The only error is out of memory.
pub fn number_groups(
    alloc: Global,
    contexts: &[Context<'_>],
    order: &ContextOrder,
    threads: &[usize],
    forked: &[bool],
    groups: &[usize],
) -> Result<GroupNumbers, AllocError>
    requires above { HaveAbove (frames_of contexts.now) }
    requires ordered { AreOrdered (frames_of contexts.now) order.now.order.items
        order.now.below.items }
    requires within { All (λ x. x < length contexts.now) order.now.order.items }
    requires threads { length threads.now ≡ length contexts.now }
    requires forked { length forked.now ≡ length contexts.now }
    requires groups { length groups.now ≡ length contexts.now }
    requires grouped { All (λ g. g < length groups.now) groups.now }
    ensures heads { IfOk result (λ found. found.heads.items
        ≡ heads_by_group (frames_of contexts.now) order.now.order.items order.now.below.items
        threads.now forked.now groups.now) }
    ensures numbers { IfOk result (λ found. found.numbers.items
        ≡ numbers_by_group (frames_of contexts.now) order.now.order.items order.now.below.items
        threads.now forked.now groups.now) }
    ensures head_count { IfOk result (λ found. length found.heads.items ≡ length groups.now) }
    ensures number_count { IfOk result (λ found. length found.numbers.items ≡ length groups.now) }
    ensures within { IfOk result (λ found. All (λ x. x < length contexts.now) found.heads.items) }
    ensures least { IfOk result (λ found.
        AreNumbered (frames_of contexts.now) forked.now groups.now found.numbers.items) }
{
    let first = find_heads(alloc, order, forked, groups)?;
    let numbers = number_heads(alloc, &first, contexts, threads)?;
    place_groups(alloc, &first, &numbers, groups)
}
