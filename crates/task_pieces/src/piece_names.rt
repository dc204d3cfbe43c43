ghost use Rattle.std.specs.Prelude.{◌≡◌, ◌<◌, ◌≤◌, ◌+◌, ◌++◌, ◌∷◌, [], All, length, IfOk, OnOk};
ghost use Rattle.std.specs.Prelude.{if◌then◌else◌, slice_index_or};
ghost use Rattle.std.specs.List.{list_any};
ghost use Rattle.std.specs.Str.{bytes_eq};
ghost use Rattle.task_pieces.specs.inner.Naming.{AreAllNames, AreNames, HasFreeNames};

use crate::stems::{make_name, make_stem};
use indexmap::IndexSet;
use std::alloc::{AllocError, Global};
use std::marker::Model;
use trace_types::Text;

/// The names of the pieces of a task, seen as their list.
#[derive(Drop)]
pub(crate) struct PieceNames {
    names: Vec<Text>,
}

impl Model for PieceNames {
    ghost use Rattle.std.specs.Prelude.{List, ℕ};

    ghost Value = { List (List ℕ) };

    ghost view = { λ a. a.names.items };
}

impl PieceNames {
    /// Returns the names, by piece.
    pub(crate) fn names(&self) -> &[Text]
        ensures { result.now ≡ self.now }
    {
        &self.names
    }
}

/// Appends a name, unless a task has it.
fn push_if_free(tasks: &IndexSet<Text>, name: Text, names: &mut Vec<Text>) -> Result<(), AllocError>
    ensures { OnOk result (names.new.items
        ≡ (if list_any (bytes_eq name) tasks.now.keys then names.old.items
        else names.old.items ++ name ∷ [])) }
{
    if tasks.contains(&name) {
        return Ok(());
    }
    Ok(names.push(name)?)
}

/// Appends names with free numbers, in order, up to so many names in all.
fn push_names(
    alloc: Global,
    tasks: &IndexSet<Text>,
    stem: &str,
    count: u32,
    names: &mut Vec<Text>,
) -> Result<(), AllocError>
    requires one { length names.old.items ≡ 1 }
    requires few { count + length tasks.now.keys + 8 < u32.MAX }
    ensures { OnOk result
        (HasFreeNames tasks.now.keys stem.now count names.old.items names.new.items) }
{
    let mut number = 2u32;
    'numbers: while names.len() < count as usize {
        let name = make_name(alloc, stem, number)?;
        push_if_free(tasks, name, names)?;
        number += 1;
    }
    Ok(())
}

/// Makes the names of the first pieces of the task with this number, so many at least.
fn names_of_task(
    alloc: Global,
    tasks: &IndexSet<Text>,
    number: usize,
    count: u32,
) -> Result<PieceNames, AllocError>
    requires there { number < length tasks.now.keys }
    requires few { count + length tasks.now.keys + 8 < u32.MAX }
    ensures { IfOk result
        (AreNames tasks.now.keys (slice_index_or tasks.now.keys number []) count) }
{
    let task = &tasks.as_slice()[number];
    let mut names = Vec::new(alloc);
    names.push(task.copy(alloc)?)?;
    let stem = make_stem(alloc, task.as_str(), number as u64 + 1)?;
    push_names(alloc, tasks, stem.as_str(), count, &mut names)?;
    Ok(PieceNames { names })
}

/// Makes the names of the first pieces of each task, so many at least. The only error is out of
/// memory.
pub(crate) fn name_pieces(
    alloc: Global,
    tasks: &IndexSet<Text>,
    most: &[u32],
) -> Result<Vec<PieceNames>, AllocError>
    requires same { length most.now ≡ length tasks.now.keys }
    requires few { All (λ count. count + length tasks.now.keys + 8 < u32.MAX) most.now }
    ensures { IfOk result (λ names.
        AreAllNames tasks.now.keys most.now (length most.now) names.items) }
{
    let mut names = Vec::with_capacity(alloc, most.len())?;
    for number in 0..most.len() {
        names.push(names_of_task(alloc, tasks, number, most[number])?)?;
    }
    Ok(names)
}
