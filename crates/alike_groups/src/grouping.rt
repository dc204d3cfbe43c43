ghost use Rattle.std.specs.Prelude.{◌≡◌, ◌<◌, All, IfOk, IfSome, List, OnOk, Some, cond};
ghost use Rattle.std.specs.Prelude.{length, slice_get};
ghost use Rattle.indexmap.specs.IndexMap.{get, keys};
ghost use Rattle.indexmap.specs.IndexSet.{insert_key};
ghost use Rattle.alike_groups.specs.Groups.{groups_of};
ghost use Rattle.alike_groups.specs.declared.group.Group.{Group};
ghost use Rattle.alike_groups.specs.inner.Grouping.{AreGrouped, group_with};

use crate::Group;
use indexmap::IndexMap;
use std::alloc::{AllocError, Global};
use std::hash::Hash;

/// Gives the group of a key with the element at an index more.
fn group_with<K: Eq + Hash>(groups: &IndexMap<K, Group>, key: &K, index: usize) -> Group
    requires { IfSome (get K.eq groups.now key.now) (λ g. g.count < usize.MAX) }
    ensures { result ≡ group_with (get K.eq groups.now key.now) index }
{
    match groups.get(key) {
        Some(group) => Group {
            first: group.first,
            count: group.count + 1,
        },
        None => Group {
            first: index,
            count: 1,
        },
    }
}

/// Adds the element at an index to the group of its key.
fn add_element<K: Eq + Hash + Copy + Drop>(
    groups: &mut IndexMap<K, Group>,
    key: K,
    index: usize,
) -> Result<(), AllocError>
    requires { IfSome (get K.eq groups.old key) (λ g. g.count < usize.MAX) }
    ensures each { OnOk result ((other : K) → get K.eq groups.new other ≡ cond (K.eq key other)
        (Some (group_with (get K.eq groups.old key) index)) (get K.eq groups.old other)) }
    ensures keys { OnOk result (keys groups.new ≡ insert_key K.eq (keys groups.old) key) }
{
    let group = group_with(groups, &key, index);
    groups.insert(key, group)?;
    Ok(())
}

/// Gathers the groups of elements, by their keys.
fn gather_groups<K: Eq + Hash + Copy + Drop>(
    alloc: Global,
    elements: &[K],
) -> Result<IndexMap<K, Group>, AllocError>
    ensures { IfOk result (AreGrouped K.eq elements.now) }
{
    let mut groups = IndexMap::new(alloc);
    'elements: for index in 0..elements.len() {
        add_element(&mut groups, elements[index], index)?;
    }
    Ok(groups)
}

/// Gives the group at an index.
fn group_at<K: Eq + Hash>(groups: &IndexMap<K, Group>, index: usize) -> Group
    requires { index < length groups.now.entries }
    ensures { (key : K) → slice_get (keys groups.now) index ≡ Some key
        → get K.eq groups.now key ≡ Some result }
{
    match groups.get_index(index) {
        Some((_, group)) => *group,
        None => unreachable!(),
    }
}

/// Lists the groups.
fn list_groups<K: Eq + Hash>(
    alloc: Global,
    groups: &IndexMap<K, Group>,
) -> Result<Vec<Group>, AllocError>
    ensures { (elements : List K) → AreGrouped K.eq elements groups.now
        → IfOk result (λ list. list.items ≡ groups_of K.eq elements) }
{
    let mut list = Vec::with_capacity(alloc, groups.len())?;
    'entries: for index in 0..groups.len() {
        list.push(group_at(groups, index))?;
    }
    Ok(list)
}

/// Groups equal elements, in the order in which the first of each stand. The only error is out of
/// memory.
pub fn group_alike<K: Eq + Hash + Copy + Drop>(
    alloc: Global,
    elements: &[K],
) -> Result<Vec<Group>, AllocError>
    ensures groups { IfOk result (λ groups. groups.items ≡ groups_of K.eq elements.now) }
    ensures within { IfOk result (λ groups.
        All (λ (g : Group). g.first < length elements.now) groups.items) }
{
    let groups = gather_groups(alloc, elements)?;
    list_groups(alloc, &groups)
}
